// The words of a day file, and what one or two of them say.
ghost use Rattle.std.specs.Prelude.{◌≡◌, ◌+◌, ◌*◌, ◌^◌, ◌<◌, ◌≤◌, true, length};
ghost use Rattle.dayfile.specs.Words.{word, index_value, number_of, single, starts, double, of_single, of_double, wrong};

use crate::file_fault::{Cause, FileFault};
use crate::kind::Kind;
use crate::reader::Item;
use contract::Call;
use faults::{Refusal, require};

// A word is a kind, its top 4 bits, and a body of 28 bits.
pub(crate) const BODIES: u32 = 1 << 28;
// A body of two numbers of 14 bits: accounts, or bid and offer.
const HALVES: u32 = 1 << 14;
// A body of vega above 12 bits of tick, where bit 27 is never set.
const TICKS: u32 = 1 << 12;

const VEGA_END: u32 = 1 << 27;

// An item, and how many words it takes.
#[derive(Clone, Copy)]
pub(crate) struct Read {
    pub(crate) item: Item,
    pub(crate) words: usize,
}

// The word at a place, its highest byte first. Of a chunk of four bytes (`as_chunks`) the check does not find where they stand in the file.
pub(crate) fn word_at(bytes: &[u8], place: usize) -> u32
    requires { 4 * place + 4 ≤ length bytes.now }
    ensures { result ≡ word bytes.now place }
{
    let at = 4 * place;
    u32::from_be_bytes([bytes[at], bytes[at + 1], bytes[at + 2], bytes[at + 3]])
}

pub(crate) fn wrong_word(place: usize) -> FileFault
    ensures { result ≡ wrong place }
{
    FileFault {
        place,
        cause: Cause::File(Refusal::WrongWord),
    }
}

// 0 stands for a disrupted day.
fn value_of(body: u32) -> Option<u32>
    ensures { result ≡ index_value body }
{
    (body != 0).then_some(body)
}

// What the word at a place says that needs no second.
pub(crate) fn one_word(place: usize, kind: Kind, body: u32) -> Result<Read, FileFault>
    ensures { result ≡ of_single place (single (number_of kind) body) }
{
    let item = match kind {
        Kind::DiscountFactor => Item::Call(Call::Open { discount: body }),
        Kind::Ticket => Item::Call(Call::Bust { ticket: body }),
        Kind::Rate => Item::Call(Call::Accrue { rate: body }),
        Kind::FinalValue => Item::Call(Call::Settle {
            value: value_of(body),
        }),
        Kind::AccountNumber => Item::Account(body),
        _ => return Err(wrong_word(place)),
    };
    Ok(Read { item, words: 1 })
}

// The call of two words. The kind of a second word is one above that of its first; any other leaves the first unfinished.
pub(crate) fn two_words(place: usize, kind: Kind, body: u32, second: u32) -> Result<Read, FileFault>
    requires kind { starts (number_of kind) ≡ true }
    requires place { place + 1 < 2 ^ 64 }
    ensures { result ≡ of_double place (double (number_of kind) body second) }
{
    require(second / BODIES == kind as u32 + 1, wrong_word(place))?;
    let rest = second % BODIES;
    let call = match kind {
        Kind::ExpectedValues => Call::List {
            expected: body,
            strike: rest,
        },
        Kind::Accounts => {
            require(rest < VEGA_END, wrong_word(place + 1))?;
            Call::Trade {
                buyer: body / HALVES,
                seller: body % HALVES,
                vega: rest / TICKS,
                tick: rest % TICKS,
            }
        }
        _ => Call::Close {
            value: value_of(body),
            bid: rest / HALVES,
            offer: rest % HALVES,
        },
    };
    Ok(Read {
        item: Item::Call(call),
        words: 2,
    })
}

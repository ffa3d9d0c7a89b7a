// A line: the four words of a payment. Its words are laid out like a day file's, by a format of their own, which may part from that one.
ghost use Rattle.std.specs.Prelude.{◌≡◌, ◌<◌};
ghost use Rattle.journal.specs.Lines.{part as part_of, parts, payment_in, word as word_of, words_of as line_of};

use ledger::payment::Payment;

pub(crate) const LINE: usize = 4;

// A word has its kind in the top four bits, and in the 28 below them one of so many parts.
const PARTS: u64 = 0x1000_0000;

// So many values have the top 8 bits of an amount.
const TOP: u64 = 256;

// The word of a kind that holds a part.
fn word(kind: u64, part: u64) -> u32
    requires kind { kind < 16 }
    requires part { part < parts }
    ensures { result ≡ word_of kind part }
{
    (kind * PARTS + part) as u32
}

// The part in a word.
fn part(word: u32) -> u64
    ensures { result ≡ part_of word }
{
    u64::from(word) % PARTS
}

// The line of a payment: its account, then the top 8, the next 28 and the last 28 bits of its amount.
pub(crate) fn words_of(payment: Payment) -> [u32; LINE]
    requires { payment.account < parts }
    ensures { result ≡ line_of payment }
{
    let bits = payment.amount.cast_unsigned();
    let (middle, low) = (bits / PARTS % PARTS, bits % PARTS);
    [
        word(1, u64::from(payment.account)),
        word(2, bits / PARTS / PARTS),
        word(3, middle),
        word(4, low),
    ]
}

// The payment in the words of a line.
pub(crate) fn payment_of(line: &[u32; LINE]) -> Payment
    ensures { result ≡ payment_in line.now }
{
    let [account, top, middle, low] = *line;
    let bits = (u64::from(top) % TOP * PARTS + part(middle)) * PARTS + part(low);
    Payment {
        account: part(account) as u32,
        amount: bits.cast_signed(),
    }
}

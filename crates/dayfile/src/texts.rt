// How the sheet writes money, accumulated returns, lines and refusals.
ghost use Rattle.std.specs.Prelude.{◌≡◌, ◌^◌, ◌<◌, Some};
ghost use Rattle.dayfile.specs.Texts.{sign, decimal_text, line_text, call_word, fault_text};

use crate::file_fault::{Cause, FileFault};
use crate::lines::Line;
use std::error::Error;
use std::fmt;

fn sign_of(value: i64) -> &'static str
    ensures { result.now ≡ sign value }
{
    if value < 0 { "-" } else { "" }
}

// A number of parts, of which UNIT make a whole, written with so many decimals.
#[derive(Clone, Copy, PartialEq, Eq, Debug)]
pub struct Decimal<const UNIT: u64, const DECIMALS: usize> {
    pub value: i64,
    ghost whole: { 0 < UNIT },
    ghost written: { UNIT ≡ 10 ^ DECIMALS },
}

// Ten-thousandths of a dollar or a point.
pub type Money = Decimal<10_000, 4>;

// Hundred-millionths of a point.
pub type Accumulated = Decimal<100_000_000, 8>;

impl<const UNIT: u64, const DECIMALS: usize> fmt::Display for Decimal<UNIT, DECIMALS> {
    ghost output = { λ x. Some (decimal_text UNIT DECIMALS x.value) };

    fn fmt<W: fmt::Write>(&self, f: &mut fmt::Formatter<W>) -> fmt::Result {
        let sign = sign_of(self.value);
        let size = self.value.unsigned_abs();
        let whole = size / UNIT;
        let part = size % UNIT;
        write!(f, "{sign}{whole}.{part:0DECIMALS$}")
    }
}

impl fmt::Display for Line {
    ghost output = { λ x. Some (line_text x) };

    fn fmt<W: fmt::Write>(&self, f: &mut fmt::Formatter<W>) -> fmt::Result {
        match *self {
            Line::Close {
                day,
                price,
                accumulated,
            } => {
                let price = Money { value: price };
                let accumulated = Accumulated { value: accumulated };
                write!(f, "C {day} {price} {accumulated}")
            }
        }
    }
}

// The word for what was refused: a call by its name.
impl fmt::Display for Cause {
    ghost output = { λ x. Some (call_word x) };

    fn fmt<W: fmt::Write>(&self, f: &mut fmt::Formatter<W>) -> fmt::Result {
        match *self {
            Cause::File(_) => f.write_str("file"),
            Cause::Account(_) => f.write_str("account"),
            Cause::Call(refused) => {
                let call = refused.call;
                write!(f, "{call}")
            }
            Cause::Memory => f.write_str("memory"),
        }
    }
}

impl fmt::Display for FileFault {
    ghost output = { λ x. Some (fault_text x) };

    fn fmt<W: fmt::Write>(&self, f: &mut fmt::Formatter<W>) -> fmt::Result {
        let place = self.place;
        let cause = self.cause;
        match cause.fault() {
            Some(fault) => {
                let number = fault.refusal.number();
                let account = fault.account.unwrap_or(0);
                write!(f, "R {place} {cause} {number} {account}")
            }
            None => write!(f, "no {cause} at {place}"),
        }
    }
}

impl Error for FileFault {}

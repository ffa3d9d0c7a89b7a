// Why a call is refused: the refusals of the book with their numbers, and the fault that names one.
#![tactic(auto)]

ghost use Rattle.std.specs.Prelude.{◌≡◌, true, false, Ok, Err};
ghost use Rattle.faults.specs.Refusals.{named, number as number_of, plain as plain_of};

// Those of the input stand first, then those of the state, each with the number by which a clerk knows it.
#[derive(Clone, Copy, PartialEq, Eq, Debug)]
pub enum Refusal {
    ExpectedValues = 1,
    Strike = 2,
    DiscountFactor = 3,
    AccountNumber = 4,
    SameAccount = 5,
    Vega = 6,
    Tick = 7,
    BidAboveOffer = 8,
    IndexValue = 9,
    Rate = 10,
    WrongWord = 11,
    FileLength = 12,
    DisruptedSettlement = 13,
    Phase = 31,
    ClosesDone = 32,
    ClosesMissing = 33,
    UnknownAccount = 34,
    TradeUnits = 35,
    AccountUnits = 36,
    NoAccountPlace = 37,
    NoTradePlace = 38,
    TradesUsedUp = 39,
    NoSuchTrade = 40,
    NotAdmitted = 41,
    OutOfRange = 42,
    NoCapacity = 43,
}

// A refusal, and the account that it names, if any.
#[derive(Clone, Copy, PartialEq, Eq, Debug)]
pub struct Fault {
    pub refusal: Refusal,
    pub account: Option<u32>,
}

// A refusal that names no account.
impl From<Refusal> for Fault {
    ghost from_gives = { λ refusal fault. fault ≡ plain_of refusal };

    fn from(refusal: Refusal) -> Fault {
        Fault {
            refusal,
            account: None,
        }
    }
}

impl Refusal {
    // The number by which a clerk knows the refusal.
    pub fn number(self) -> u32
        ensures { result ≡ number_of self }
    {
        self as u32
    }

    // The fault that names an account.
    pub fn at(self, account: u32) -> Fault
        ensures { result ≡ named self account }
    {
        Fault {
            refusal: self,
            account: Some(account),
        }
    }
}

// One check: the refusal, unless it passes.
pub fn require<E: Drop>(passes: bool, refusal: E) -> Result<(), E>
    ensures { elim result [ Ok _ ↦ passes ≡ true | Err e ↦ (passes ≡ false) × (e ≡ refusal) ] }
{
    if passes { Ok(()) } else { Err(refusal) }
}

// The kinds of words.
ghost use Rattle.dayfile.specs.Words.{Names};

// What a word says, by the number in its top 4 bits.
#[derive(Clone, Copy, PartialEq, Eq, Debug)]
pub(crate) enum Kind {
    ExpectedValues = 1,
    Strike = 2,
    DiscountFactor = 3,
    Accounts = 4,
    Size = 5,
    Ticket = 6,
    IndexValue = 7,
    Quotes = 8,
    Rate = 9,
    FinalValue = 10,
    AccountNumber = 11,
}

// A number of no kind.
#[derive(Clone, Copy, PartialEq, Eq, Debug)]
pub(crate) struct NoKind;

impl TryFrom<u32> for Kind {
    type Error = NoKind;

    ghost try_from_gives = { Names };

    fn try_from(number: u32) -> Result<Kind, NoKind> {
        match number {
            1 => Ok(Kind::ExpectedValues),
            2 => Ok(Kind::Strike),
            3 => Ok(Kind::DiscountFactor),
            4 => Ok(Kind::Accounts),
            5 => Ok(Kind::Size),
            6 => Ok(Kind::Ticket),
            7 => Ok(Kind::IndexValue),
            8 => Ok(Kind::Quotes),
            9 => Ok(Kind::Rate),
            10 => Ok(Kind::FinalValue),
            11 => Ok(Kind::AccountNumber),
            _ => Err(NoKind),
        }
    }
}

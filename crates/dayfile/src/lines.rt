// The lines of the sheet that accepted calls add.
ghost use Rattle.std.specs.Prelude.{◌≡◌};
ghost use Rattle.dayfile.specs.Runs.{line_of};

use contract::{Call, Figures};

#[derive(Clone, Copy, PartialEq, Eq, Debug)]
pub enum Line {
    // The day, counted from 0, the settlement price, and the accumulated return.
    Close {
        day: u32,
        price: i64,
        accumulated: i64,
    },
}

// What the sheet says of an accepted call, with the contract's figures after it.
pub(crate) fn line_of(call: Call, figures: Figures) -> Option<Line>
    ensures { result ≡ line_of call figures }
{
    match call {
        Call::Close { .. } => Some(Line::Close {
            day: figures.closes.saturating_sub(1),
            price: figures.price,
            accumulated: figures.accumulated,
        }),
        _ => None,
    }
}

// What a close is marked from.
ghost use Rattle.std.specs.Prelude.{◌≤◌};

use quantities::Tick;

// A bid, and an offer that is not below it.
#[derive(Clone, Copy, PartialEq, Eq, Debug)]
pub(crate) struct Quotes {
    pub(crate) bid: Tick,
    pub(crate) offer: Tick,
    ghost ordered: { bid.value ≤ offer.value },
}

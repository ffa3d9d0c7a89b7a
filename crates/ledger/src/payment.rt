ghost use Rattle.std.specs.Prelude.{◌≡◌};
ghost use Rattle.ledger.specs.Limits.{is_zero};

// A payment of an amount, in ten-thousandths of a dollar, to an account; a negative amount takes from it.
#[derive(Clone, Copy, PartialEq, Eq, Debug)]
pub struct Payment {
    pub account: u32,
    pub amount: i64,
}

impl Payment {
    pub fn is_zero(self) -> bool
        ensures { result ≡ is_zero self.amount }
    {
        self.amount == 0
    }
}

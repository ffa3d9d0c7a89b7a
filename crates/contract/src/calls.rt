// The calls of a contract, each with its own figures, and what an accepted call answers.
ghost use Rattle.std.specs.Prelude.{◌≡◌, Some};
ghost use Rattle.contract.specs.Calls.{name_of, name_word};

use std::fmt;

#[derive(Clone, Copy, PartialEq, Eq, Debug)]
pub enum Call {
    List {
        expected: u32,
        strike: u32,
    },
    Open {
        discount: u32,
    },
    Trade {
        buyer: u32,
        seller: u32,
        vega: u32,
        tick: u32,
    },
    Bust {
        ticket: u32,
    },
    // A value of none is a disrupted day.
    Close {
        value: Option<u32>,
        bid: u32,
        offer: u32,
    },
    Accrue {
        rate: u32,
    },
    Settle {
        value: Option<u32>,
    },
}

#[derive(Clone, Copy, PartialEq, Eq, Debug)]
pub enum CallName {
    List,
    Open,
    Trade,
    Bust,
    Close,
    Accrue,
    Settle,
}

#[derive(Clone, Copy, PartialEq, Eq, Debug)]
pub enum Answer {
    Done,
}

impl Call {
    pub fn name(self) -> CallName
        ensures { result ≡ name_of self }
    {
        match self {
            Call::List { .. } => CallName::List,
            Call::Open { .. } => CallName::Open,
            Call::Trade { .. } => CallName::Trade,
            Call::Bust { .. } => CallName::Bust,
            Call::Close { .. } => CallName::Close,
            Call::Accrue { .. } => CallName::Accrue,
            Call::Settle { .. } => CallName::Settle,
        }
    }
}

// The word by which a sheet names the call.
impl fmt::Display for CallName {
    ghost output = { λ name. Some (name_word name) };

    fn fmt<W: fmt::Write>(&self, f: &mut fmt::Formatter<W>) -> fmt::Result {
        f.write_str(match *self {
            CallName::List => "list",
            CallName::Open => "open",
            CallName::Trade => "trade",
            CallName::Bust => "bust",
            CallName::Close => "close",
            CallName::Accrue => "accrue",
            CallName::Settle => "settle",
        })
    }
}

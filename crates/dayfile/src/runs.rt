// The run over a whole day file.
ghost use Rattle.std.specs.Prelude.{◌≡◌, []};
ghost use Rattle.balances.specs.Accounts.{listed};
ghost use Rattle.contract.specs.Step.{unlisted};
ghost use Rattle.dayfile.specs.Runs.{state, state_of, Acts, Serves, Finished};

use crate::accounts::admit;
use crate::file_fault::{Cause, FileFault};
use crate::lines::{Line, line_of};
use crate::reader::{Item, Placed, Reader};
use balances::accounts::Accounts;
use contract::Contract;
use std::alloc::Global;
use std::mem;

// What a run changes: the contract, the accounts noted for its balance table, and the lines of the sheet.
#[derive(Drop)]
pub struct Day {
    pub contract: Contract,
    pub accounts: Accounts,
    pub lines: Vec<Line>,
}

impl Day {
    // Before the first word.
    pub fn new(alloc: Global) -> Day
        ensures { state_of result ≡ state unlisted [] [] }
    {
        Day {
            contract: Contract::new(),
            accounts: Accounts::new(),
            lines: Vec::new(alloc),
        }
    }

    // What one item does, and the line that it adds.
    fn act(&mut self, item: Item) -> Result<(), Cause>
        ensures { Acts (state_of self.old) item result (state_of self.new) }
    {
        match item {
            Item::Account(account) => {
                let phase = self.contract.figures().phase;
                admit(&mut self.accounts, phase, account)?;
            }
            Item::Call(call) => {
                self.contract.step(call)?;
                if let Some(line) = line_of(call, self.contract.figures()) {
                    self.lines.push(line)?;
                }
            }
        }
        Ok(())
    }

    // The same, where a fault has the place of the item.
    fn serve(&mut self, placed: Placed) -> Result<(), FileFault>
        ensures { Serves (state_of self.old) placed result (state_of self.new) }
    {
        self.act(placed.item).map_err(|cause| FileFault {
            place: placed.place,
            cause,
        })
    }

    // Every item of a day file in turn, each on what the one before it left, up to the first refusal.
    pub fn run(&mut self, bytes: &[u8]) -> Result<(), FileFault>
        ensures { Finished bytes.now (state_of self.old) result (state_of self.new) }
    {
        let mut reader = Reader::new(bytes)?;
        while let Some(placed) = reader.next_item()? {
            self.serve(placed)?;
        }
        Ok(())
    }
}

// The same over parts that are lent apart: they are the day's while it runs.
pub fn run(
    bytes: &[u8],
    contract: &mut Contract,
    accounts: &mut Accounts,
    lines: &mut Vec<Line>,
) -> Result<(), FileFault>
    ensures { Finished bytes.now (state contract.old.figures (listed accounts.old) lines.old.items) result (state contract.new.figures (listed accounts.new) lines.new.items) }
{
    let none = Vec::new(*lines.allocator());
    let mut day = Day {
        contract: mem::replace(contract, Contract::new()),
        accounts: *accounts,
        lines: mem::replace(lines, none),
    };
    let end = day.run(bytes);
    let Day {
        contract: ran,
        accounts: noted,
        lines: written,
    } = day;
    *contract = ran;
    *accounts = noted;
    *lines = written;
    end
}

// Reads a day file on standard input and prints its sheet.
#![tactic(auto)]

use anyhow::anyhow;
use dayfile::limits::LONGEST_FILE;
use dayfile::{Cause, Day};
use std::io::{Read, Write};

fn print_sheet(rt: &HostRuntime) -> anyhow::Result<()> {
    let mut bytes = Vec::new(rt.alloc());
    // One byte more than a file may have tells that it is too long.
    rt.stdin()
        .take(LONGEST_FILE as u64 + 1)
        .read_to_end(&mut bytes)?;
    let mut day = Day::new(rt.alloc());
    let end = day.run(&bytes);
    let lacks_memory = end.is_err_and(|fault| fault.cause == Cause::Memory);
    // A sheet that is cut short is not printed, but first made: where that fails too, that is what went wrong.
    let sheet = day.sheet(rt.alloc(), if lacks_memory { Ok(()) } else { end })?;
    if lacks_memory {
        return Err(anyhow!("no memory for the lines of the sheet"));
    }
    rt.stdout().write_all(sheet.as_bytes())?;
    Ok(())
}

// A refusal is a printed result: only input, output or memory that fails is an error.
fn main(rt: HostRuntime) -> anyhow::Result<()> {
    print_sheet(&rt)
}

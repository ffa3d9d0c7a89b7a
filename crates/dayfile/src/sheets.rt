// The sheet that a run prints.
ghost use Rattle.std.specs.Prelude.{◌≡◌, IfOk, string_bytes};
ghost use Rattle.dayfile.specs.Texts.{sheet_text};

use crate::file_fault::FileFault;
use crate::runs::Day;
use std::alloc::{AllocError, Global};
use std::fmt::Write;

impl Day {
    // A line for each accepted call that has one, and then what ended the run, if it was refused.
    pub fn sheet(&self, alloc: Global, end: Result<(), FileFault>) -> Result<String, AllocError>
        ensures { IfOk result (λ s. string_bytes s ≡ sheet_text self.now.lines.items end) }
    {
        let mut sheet = String::new(alloc);
        for line in &self.lines {
            writeln!(sheet, "{line}")?;
        }
        if let Err(fault) = end {
            writeln!(sheet, "{fault}")?;
        }
        Ok(sheet)
    }
}

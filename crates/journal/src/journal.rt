ghost use Rattle.std.specs.Prelude.{◌/◌, ◌≤◌, length};

mod reading;
mod writing;

// Payments one after another, to accounts from a first to a last number.
// The words are the caller's, since a ledger allocates nothing, so how many lines are written in them is counted beside them.
#[derive(Drop)]
pub struct Journal<'a> {
    words: &'a mut [u32],
    lines: usize,
    first: u32,
    last: u32,
    ghost within: { lines ≤ length words.now / 4 },
}

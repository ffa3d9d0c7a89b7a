// The figures that a contract keeps between calls. They are numbers, so that the promises on them read as the rules do;
// that they stay within their limits is a fact of `Contract`.
#[derive(Clone, Copy, PartialEq, Eq, Debug)]
pub enum Phase {
    Unlisted,
    Ready,
    Trading,
    Closed,
}

// The index values kept: the last of them, and the returns between them.
#[derive(Clone, Copy, PartialEq, Eq, Debug)]
pub struct IndexRecord {
    pub last: Option<u32>,
    pub returns: u32,
    pub sum_of_squares: u64,
}

#[derive(Clone, Copy, PartialEq, Eq, Debug)]
pub struct Figures {
    pub phase: Phase,
    // Ne, the number of expected values.
    pub expected: u32,
    // k0.
    pub strike: u32,
    // DF of the day.
    pub discount: u32,
    pub closes: u32,
    pub index: IndexRecord,
    // The last settlement price F.
    pub price: i64,
    // The accumulated return A.
    pub accumulated: i64,
}

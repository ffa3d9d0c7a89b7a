// How many accounts a list holds, and rows a table.
pub const PLACES: usize = 64;

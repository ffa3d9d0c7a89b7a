use crate::place::PLACES;
use arrayvec::ArrayVec;
use std::default::MadeWith;

pub mod lending;

// An account, and what a table keeps of it.
#[derive(Clone, Copy)]
pub struct Row<R> {
    account: u32,
    value: R,
}

// A place with no row is filled with nobody's.
impl<R: Copy> MadeWith<R> for Row<R> {
    fn made_with(value: R) -> Row<R> {
        Row { account: 0, value }
    }
}

// A table with one row for each of its accounts.
#[derive(Drop)]
pub struct Rows<R> {
    rows: ArrayVec<Row<R>, PLACES, R>,
}

// Making a table, and the calls that only read it.
ghost use Rattle.std.specs.Prelude.{◌≡◌, ◌≤◌, min, [], length, MatchResult};
ghost use Rattle.std.specs.List.{slice_get};
ghost use Rattle.table.specs.Places.{Parted, Stands};
ghost use Rattle.table.specs.Records.{find_in};
ghost use Rattle.table.specs.View.{memory, place_for, records, room};

use super::Table;
use crate::keyed::Keyed;

impl<'a, V: Copy> Table<'a, V> {
    // The empty table over lent memory, which stays as it was.
    pub fn new(places: &'a mut [Keyed<V>]) -> Self
        ensures records { records result ≡ [] }
        ensures memory { memory result ≡ places.old }
        ensures room { room result ≡ length places.old }
        ensures lender { result.places.ghost_name ≡ places.entry.ghost_name }
    {
        Table { places, count: 0 }
    }

    // How many records the memory can hold.
    pub fn capacity(&self) -> usize
        ensures { result ≡ room self.now }
    {
        self.places.len()
    }

    // The records in rising key.
    pub fn records(&self) -> &[Keyed<V>]
        ensures records { result.now ≡ records self.now }
        ensures within { length result.now ≤ room self.now }
    {
        &self.places[..self.count]
    }

    // How many records the table holds.
    pub fn count(&self) -> usize
        ensures count { result ≡ length (records self.now) }
        ensures within { result ≤ room self.now }
    {
        self.records().len()
    }

    // The record at a place, counted from 0 in rising key.
    pub fn at(&self, place: usize) -> Option<Keyed<V>>
        ensures { result ≡ slice_get (records self.now) place }
    {
        self.records().get(place).copied()
    }

    // The place of the record of a key, or else the place where it would stand.
    pub(super) fn seek(&self, key: u32) -> Result<usize, usize>
        ensures { MatchResult result (Stands key (records self.now)) (Parted key (records self.now)) }
    {
        self.records()
            .binary_search_by_key(&key, |record| record.key)
    }

    // The record of a key.
    pub fn find(&self, key: u32) -> Option<Keyed<V>>
        ensures { result ≡ find_in key (records self.now) }
    {
        let place = self.seek(key).ok()?;
        self.at(place)
    }

    // Whether there is a place for this key, at most `limit` places being used.
    pub fn has_place(&self, key: u32, limit: usize) -> bool
        ensures { result ≡ place_for (min (room self.now) limit) key (records self.now) }
    {
        self.find(key).is_some() || self.count < self.capacity().min(limit)
    }
}

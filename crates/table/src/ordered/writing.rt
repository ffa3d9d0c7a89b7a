// The calls that change a table: each lays the records that it leaves over the memory, and leaves the places beyond.
ghost use Rattle.std.specs.Prelude.{◌≡◌, ◌<◌, true, [], length, is_ok, if◌then◌else◌, map, nat_lt};
ghost use Rattle.table.specs.Laws.{AfterPut, AfterTake};
ghost use Rattle.table.specs.Places.{Lacks, Stands};
ghost use Rattle.table.specs.Records.{Computes, each_value, find_in, key_of, put_in, set_in, take_out};
ghost use Rattle.table.specs.View.{LaysRecords, SamePlaces, memory, put_answer, records, room};

use super::{Full, Stored, Table};
use crate::keyed::Keyed;

// Sets each record's value to what `f` makes of it.
fn map_each<V: Copy, F: Fn(V) -> V>(records: &mut [Keyed<V>], f: F)
    requires { F.IsAlwaysCallable f }
    ensures keys { map key_of records.new ≡ map key_of records.old }
    ensures values { (g : V → V) → Computes (F.post f) g → records.new ≡ each_value g records.old }
{
    for record in records.iter_mut() {
        record.value = f(record.value);
    }
}

impl<'a, V: Copy> Table<'a, V> {
    // Empties the table; the memory stays as it was.
    pub fn clear(&mut self)
        ensures records { records self.new ≡ [] }
        ensures memory { memory self.new ≡ memory self.old }
        ensures places { SamePlaces self.old self.new }
    {
        self.count = 0;
    }

    // Sets the value at a place, whose key stays. Answers whether a record stands there.
    pub fn set_at(&mut self, place: usize, value: V) -> bool
        ensures answer { result ≡ nat_lt place (length (records self.old)) }
        ensures records { records self.new ≡ set_in place value (records self.old) }
        ensures memory { LaysRecords self.old self.new }
        ensures places { SamePlaces self.old self.new }
    {
        if place < self.count {
            self.places[place].value = value;
            return true;
        }
        false
    }

    // Sets each value to what `f` makes of it, which asks nothing of a value; the keys stay. `values` holds of any function
    // g that `f` computes.
    pub fn map_values<F: Fn(V) -> V>(&mut self, f: F)
        requires { F.IsAlwaysCallable f }
        ensures keys { map key_of (records self.new) ≡ map key_of (records self.old) }
        ensures values { (g : V → V) → Computes (F.post f) g → records self.new ≡ each_value g (records self.old) }
        ensures memory { LaysRecords self.old self.new }
        ensures places { SamePlaces self.old self.new }
    {
        map_each(&mut self.places[..self.count], f);
    }

    // Puts a record in place of the record of its key, or at the place of a new key, while a place is left.
    pub fn put(&mut self, incoming: Keyed<V>) -> Result<Stored, Full>
        ensures answer { result ≡ put_answer (room self.old) incoming (records self.old) }
        ensures records { records self.new ≡ (if is_ok result then put_in incoming (records self.old) else records self.old) }
        ensures memory { LaysRecords self.old self.new }
        ensures places { SamePlaces self.old self.new }
        ensures law { is_ok result ≡ true → AfterPut incoming (records self.old) (records self.new) }
    {
        match self.seek(incoming.key) {
            Ok(place) => {
                self.places[place] = incoming;
                Ok(Stored::Replaced)
            }
            Err(place) => {
                if self.count == self.places.len() {
                    return Err(Full);
                }
                self.insert(place, incoming);
                Ok(Stored::Added)
            }
        }
    }

    // Takes the record of a key out, and answers it.
    pub fn take(&mut self, key: u32) -> Option<Keyed<V>>
        ensures answer { result ≡ find_in key (records self.old) }
        ensures records { records self.new ≡ take_out key (records self.old) }
        ensures memory { LaysRecords self.old self.new }
        ensures places { SamePlaces self.old self.new }
        ensures law { AfterTake key (records self.old) (records self.new) }
    {
        let place = self.seek(key).ok()?;
        let taken = self.at(place);
        self.remove(place, key);
        taken
    }

    // Adds a record of a new key at its place, and moves those from there on up by one. Meanwhile only those below count.
    fn insert(&mut self, place: usize, added: Keyed<V>)
        requires place { Lacks added.key (records self.old) place }
        requires free { length (records self.old) < room self.old }
        ensures records { records self.new ≡ put_in added (records self.old) }
        ensures memory { LaysRecords self.old self.new }
        ensures places { SamePlaces self.old self.new }
    {
        let count = self.count;
        self.count = place;
        self.places.copy_within(place..count, place + 1);
        self.places[place] = added;
        self.count = count + 1;
    }

    // Drops the record of a key from its place, and moves those above down by one. The last stays in its old place too,
    // where it does not count.
    fn remove(&mut self, place: usize, key: u32)
        requires { Stands key (records self.old) place }
        ensures records { records self.new ≡ take_out key (records self.old) }
        ensures memory { LaysRecords self.old self.new }
        ensures places { SamePlaces self.old self.new }
    {
        let count = self.count;
        self.count = count - 1;
        self.places.copy_within(place + 1..count, place);
    }
}

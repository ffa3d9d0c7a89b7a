// A record: a key number, and the value kept under it. A value cannot be set under another key, by its type; of a trait over
// records that hold their keys each call that sets one would have to show it.
#[derive(Clone, Copy, PartialEq, Eq, Debug)]
pub struct Keyed<V> {
    pub key: u32,
    pub value: V,
}

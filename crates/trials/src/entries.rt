// Eight entries, tablet 1's first: a clock, a cut or the tallies of a day.
ghost use Rattle.std.specs.Prelude.{◌≡◌, ℕ, ◌+◌, ◌<◌, ◌≤◌, ◌↔◌, max, slice_index, slice_index_or, slice_set, IsTrue};

use std::array;

pub type Entries = [u8; 8];

// The column of a tablet. The numbers 0 and above 8, which no tablet has, get one too: an event with such a number is refused
// before its column is looked at.
pub fn column_of(tablet: u8) -> usize
    ensures column { 0 < tablet → tablet ≤ 8 → result + 1 ≡ tablet }
    ensures inside { result < 8 }
{
    usize::from(tablet.wrapping_sub(1) % 8)
}

// The entry of a column; 0 where there is no such column: no Option, as the callers count with it.
pub fn entry(entries: &Entries, column: usize) -> u8
    ensures { result ≡ slice_index_or entries.now column 0 }
{
    entries.get(column).copied().unwrap_or(0)
}

// The entries with another in a column; the same where there is no such column.
pub fn with_entry(mut entries: Entries, column: usize, value: u8) -> Entries
    ensures { result ≡ slice_set entries column value }
{
    if column < 8 {
        entries[column] = value;
    }
    entries
}

// Whether each entry of one is at most the other's. The crate rules has its own, which this must not use: the second lister of
// `vectors` calls nothing of the library.
pub fn at_most(low: &Entries, high: &Entries) -> bool
    ensures { IsTrue result ↔ ((j : ℕ) → j < 8 → slice_index low.now j ≤ slice_index high.now j) }
{
    low.iter().zip(high).all(|(low, high)| low <= high)
}

// The larger of two in each entry.
pub fn largest(a: &Entries, b: &Entries) -> Entries
    ensures { (j : ℕ) → j < 8 → slice_index result j ≡ max (slice_index a.now j) (slice_index b.now j) }
{
    array::from_fn(|column| entry(a, column).max(entry(b, column)))
}

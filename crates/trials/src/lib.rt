// What the two programs that try the library, `vectors` and `textvectors`, share: a fixed rule in place of chance, counters, and
// what is done with the eight entries of a clock or of tallies.
#![tactic(auto)]

mod counts;
mod draw;
pub mod entries;

pub use counts::Counts;
pub use draw::Draw;

// A row of at most 64 cells as eight words of lanes, one a relation, and back: cell j is the set of lane j.
#![tactic(auto)]

mod cells;
mod square;

pub use cells::{give_row, take_row};

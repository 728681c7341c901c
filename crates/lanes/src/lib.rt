// 64 sets of relations side by side, as eight words, one a relation: relation r is in the set of lane x where bit x of word r is 1.
// A relation composed with the sets of all lanes at once, and the places of a word's bits.
#![tactic(auto)]

mod along;
mod bits;

pub use along::composed;
pub use bits::{Places, lowest, places_of, without_lowest};

// The refinement of a matrix as document 01 states it, and what follows from the statement. Beside the definitions and theorems the
// crate has only the two enums that they share with the code that meets them, which is in the crate `network`.
#![tactic(auto)]

use region::Place;

// Where the sets run empty: at a region, at a pair, or along a triple.
#[derive(Clone, Copy, PartialEq, Eq, Debug)]
pub enum Contradiction {
    Region(Place),
    Pair(Place, Place),
    Triple(Place, Place, Place),
}

// What a round comes to: a cell ran empty, with the three regions named; nothing changed; something did. Three ways to go on, so no Result.
#[derive(Clone, Copy, PartialEq, Eq, Debug)]
pub enum Step {
    Empty(Place, Place, Place),
    Same,
    Changed,
}

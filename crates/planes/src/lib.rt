// Matrices of up to 64 regions as planes, eight words to a row: cells into planes and back, and the blocks of planes.
#![tactic(auto)]

mod cells;
mod words;

pub use cells::{give, take};
pub use words::{block_at, put_block};

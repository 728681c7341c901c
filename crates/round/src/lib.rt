// One round on planes: composition in all lanes at once, through the regions that are live; and that it is the round of the rules.
#![tactic(auto)]

mod onward;
mod rounds;
mod through;
mod words;

pub use rounds::{Emptied, round};

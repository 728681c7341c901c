// The calls for a host in C: numbers and byte slices only, each slice a pointer and a length. Every answer is 20 bytes. A file for
// each call.
#![tactic(auto)]

mod crossing;
pub mod prepare;
pub mod read;
pub mod refine;
pub mod run;
pub mod write;

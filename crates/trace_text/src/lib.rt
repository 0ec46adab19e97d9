// A part of the program `replay`: the lines of a trace, read and taken apart, and the text of the answers. Nothing of it knows the
// queue.
#![tactic(auto)]

pub mod given;
pub mod hex;
pub mod input;
pub mod output;
pub mod parse;
pub mod payload;
pub mod state;

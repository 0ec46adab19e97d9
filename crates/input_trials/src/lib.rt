// A part of the program `bad_input`: the lines of its script, random words and arguments, what must hold after a call, and what is written.
#![tactic(auto)]

pub mod answers;
pub mod parse;
pub mod random;
pub mod settle;
pub mod state;

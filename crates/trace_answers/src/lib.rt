// A part of the program `replay`: what the answers of its lines have in common. Marks and copies, by which a change shows; what is
// settled after each call; a fragment's fields.
#![tactic(auto)]

pub mod fragments;
pub mod marks;
pub mod settle;

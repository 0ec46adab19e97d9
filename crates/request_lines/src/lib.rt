// A part of the program `replay`: the lines of document 02's calls beside the queue: chunks (1/13), packets (5/13), priorities for a wanted
// order (13/13), reset requests (9/13).
#![tactic(auto)]

pub mod packet;
pub mod plan;
pub mod resets;
pub mod wire;

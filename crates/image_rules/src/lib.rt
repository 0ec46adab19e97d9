// Judging a changeover image, read only: 13, 14, 15, or 0 where it is accepted. Each byte is looked at a few times at most.
#![tactic(auto)]

pub mod code;
mod rules;

pub use code::image_code;

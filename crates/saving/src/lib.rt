// Saving a queue as a changeover image (Rust: add_to_handover_state, then the writer of the image). A first pass reads the
// queue only: it finds broken words (16) and the image's size; then the image is written to the lent buffer.
#![tactic(auto)]

pub mod image;
pub mod measuring;
pub mod messages;
pub mod streams;

pub use image::save;

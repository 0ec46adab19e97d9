// The changeover image (api/handover.rs: streams and queued messages only): restoring it. The image is judged whole before the first
// word changes.
#![tactic(auto)]

pub mod image;

pub use image::restore;

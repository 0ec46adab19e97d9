// What the libraries for C and for the Rust crate share: a message by its numbers, what goes with an answer in named places of an array, and the layout's number.
#![tactic(auto)]

pub mod answers;
pub mod fragment;
pub mod ids;
pub mod image;
pub mod layout;
pub mod message;

pub use answers::{call_number, tell_call};
pub use fragment::{show, tell_produced};
pub use ids::{copy_first, tell_ids};
pub use image::tell_saved;
pub use layout::host_layout;
pub use message::message_of;
pub use out_array::is_yes;

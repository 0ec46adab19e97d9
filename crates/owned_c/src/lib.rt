// The owned calls for the Rust crate, which alone calls them: its words and stores are private fields, made by creation and changed by these calls and restoring alone. No part of c/send_queue.h: each requires words of a queue, and tests nothing for 16.
#![tactic(auto)]

pub mod adding;
pub mod closing;
pub mod discarding;
pub mod images;
pub mod layout;
pub mod questions;
pub mod resets;
pub mod restarts;
pub mod sending;
pub mod settings;

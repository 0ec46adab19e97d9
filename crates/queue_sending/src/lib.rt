// The next fragment (tx/send_queue.rs: produce). The call is total on every input: words that no queue has get the answer 16, and
// nothing is changed.
#![tactic(auto)]

pub mod choice;
pub mod data;
pub mod fragment;
pub mod next;
pub mod next_fragment;
pub mod numbers;
pub mod own;
pub mod passing;
pub mod past;
pub mod progress;

pub use data::{Data, DataToSend, Produced};
pub use next_fragment::{produce, produce_after};

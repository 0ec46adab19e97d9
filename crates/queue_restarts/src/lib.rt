// Ready ids, and the whole-queue reset (tx/send_queue.rs).
#![tactic(auto)]

pub mod marking;
pub mod ready;
pub mod whole;

pub use ready::{ReadyStreams, count_streams_ready_to_reset, get_streams_ready_to_reset};
pub use whole::reset;

// Restoring a changeover image, by parts (tx/send_queue.rs: restore_from_state): a queue without messages, its streams, its
// messages, letting them wait, and the stream that goes first. The call stands in `handover`, which judges the image first.
#![tactic(auto)]

pub mod message_records;
pub mod recall;
pub mod stream_records;
pub mod waits;

pub use message_records::restore_messages;
pub use recall::remember_half_sent;
pub use stream_records::{empty_queue, restore_streams};
pub use waits::wait_all;

// Closing a stream (tx/send_queue.rs). The call is total on every input: words that no queue has get the answer 16, and nothing is
// changed.
#![tactic(auto)]

pub mod close;

pub use close::prepare_reset_stream;

// Creating a queue, adding messages and discarding them (tx/send_queue.rs). Each call is total
// on every input: words that no queue has get the answer 16, and nothing is changed.
#![tactic(auto)]

pub mod adding;
pub mod creation;
pub mod discarding;
pub mod message;

pub use adding::add;
pub use creation::create;
pub use discarding::discard;
pub use message::Message;

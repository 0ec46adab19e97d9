// Discarding a message and closing a stream of a queue that its own calls alone have changed: neither the head nor the chain is tested
// before messages go.
#![tactic(auto)]

pub mod closing;
pub mod discarding;
pub mod refusals;

pub use closing::prepare_reset_stream;
pub use discarding::discard;
pub use refusals::{ClosingRefusal, EventListShort};

// Reset requests to the peer (document 02, 9/13; RFC 6525), "made in a crate above the queue that uses nothing but its published
// contracts". The handler goes in by value and comes back with the answer.
#![tactic(auto)]

mod handler;
mod making;
mod receiving;

pub use handler::{StreamResetHandler, start};
pub use making::{MadeRequest, make_request};
pub use receiving::{HandledResponse, QueueReset, ResponseAnswer, handle_response, reset};
// What the owned calls share with these.
pub use handler::ended;
pub use making::write_next;
pub use receiving::{ResponseStep, step_for};

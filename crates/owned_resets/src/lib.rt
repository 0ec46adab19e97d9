// The stream reset handler's calls on a queue that its own calls alone have changed: nothing is tested for 16. Each answers and leaves what the checked call does.
#![tactic(auto)]

pub mod making;
pub mod receiving;

pub use making::{MadeRequest, RequestRefusal, make_request};
pub use receiving::{HandledResponse, ResponseWrong, handle_response, reset};

// The messages of a stream hang in a chain, the free places in another: what takes a message off its chain, and what its going
// reports. A function that reads only is total; those that write are called once such a test has passed.
#![tactic(auto)]

pub mod amounts;
pub mod dropping;
pub mod heads;
pub mod notes;
pub mod numbers;

pub use amounts::{minus, plus, remaining};
pub use dropping::{drop_first, end_pending};
pub use heads::{drop_head, head_code, release, sent_events, without_head};
pub use notes::{lifecycle_events, low_event, note};
pub use numbers::with_numbers;

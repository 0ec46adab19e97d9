// The next fragment of a queue that its own calls alone have changed. What is left and answered is what the checked call leaves and
// answers. There is no test for 16, and nothing is kept to be put back: once what is lent is accepted, no refusal follows.
#![tactic(auto)]

pub mod next_fragment;
pub mod passing;
pub mod refusals;

pub use next_fragment::{produce, produce_after};
pub use queue_sending::Produced;
pub use refusals::ProduceRefusal;

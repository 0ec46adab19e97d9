// The questions and settings of a queue that its own calls alone have changed: nothing is tested for 16, and a question has no refusal. Each answers and
// leaves what the checked call does.
#![tactic(auto)]

pub mod questions;
pub mod refusals;
pub mod settings;

pub use questions::{
    buffered_amount, buffered_amount_low_threshold, count_streams_ready_to_reset, get_priority,
    has_data_to_send, has_streams_ready_to_be_reset,
};
pub use refusals::{StreamsFull, ThresholdRefusal};
pub use settings::{set_buffered_amount_low_threshold, set_priority};

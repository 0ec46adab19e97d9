// The calls on the streams with both promises: what they leave on the words, for every input, and that on the words of a queue this
// is the model's step.
#![tactic(auto)]

pub mod questions;
pub mod settings;

pub use questions::{
    buffered_amount, buffered_amount_low_threshold, free_bytes, get_handover_readiness,
    get_priority, has_data_to_send, has_streams_ready_to_be_reset, is_empty, known_streams,
    total_buffered_amount, waiting_messages,
};
pub use settings::{set_buffered_amount_low_threshold, set_priority};

// The questions on a send queue (tx/send_queue.rs): the calls that only ask. Each is total on every input: words that no queue has
// get the answer 16.
#![tactic(auto)]

pub mod questions;

pub use questions::{
    buffered_amount, buffered_amount_low_threshold, free_bytes, get_handover_readiness,
    get_priority, has_data_to_send, has_streams_ready_to_be_reset, is_empty, known_streams,
    total_buffered_amount, waiting_messages,
};

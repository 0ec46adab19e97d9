// The send queue (tx/send_queue.rs): all its calls, under one name. Each contract of a call on a queue has two promises: what the
// call leaves on the words, for every input (`words`), and that on the words of a queue it is the step of document 01's model
// (`model`).
//
// Creation and messages.
#![tactic(auto)]

pub use linked_adding::{add, create};
pub use linked_dropping::discard;
pub use queue_messages::Message;
pub use queue_words::RestartRule;
// The next fragment.
pub use linked_sending::produce;
pub use queue_sending::{Data, DataToSend, Produced};
// Closing and restarting streams.
pub use linked_dropping::prepare_reset_stream;
pub use linked_restarts::{
    commit_reset_streams, get_streams_ready_to_reset, reset, rollback_reset_streams,
};
pub use queue_restarts::ReadyStreams;
// Settings.
pub use linked_restarts::enable_message_interleaving;
pub use linked_streams::{set_buffered_amount_low_threshold, set_priority};
// Priorities for a wanted order.
pub use priority_plan::{MAX_PLANNED, PlannedPriorities, plan_priorities};
// Chunks on the wire.
pub use chunks::{Chunk, ChunkKind, read_chunk, write_chunk};
// Packets on the wire.
pub use linked_packets::fill_packet;
pub use packets::{Filled, Packet};
// The questions.
pub use linked_restarts::count_streams_ready_to_reset;
pub use linked_streams::{
    buffered_amount, buffered_amount_low_threshold, free_bytes, get_handover_readiness,
    get_priority, has_data_to_send, has_streams_ready_to_be_reset, is_empty, known_streams,
    total_buffered_amount, waiting_messages,
};
// The changeover image.
pub use linked_restoring::restore;
pub use linked_saving::save;
// Answers, the words and the event list.
pub use queue_streams::{EVENT_PLACES, EVENT_WORDS, PLACE_WORDS};
pub use queue_words::QUEUE_WORDS;
// Counters and ids.
pub use types::{Fsn, Mid, OutgoingMessageId, Refusal, Ssn, StreamId, StreamKey};

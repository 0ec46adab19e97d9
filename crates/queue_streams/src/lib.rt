// The streams of a send queue (tx/send_queue.rs): the calls on them that change no message. Each is total on every input: words
// that no queue has get the answer 16, and nothing is changed.
#![tactic(auto)]

mod commit;
pub mod events;
pub mod known;
pub mod owned;
pub mod restart;
pub mod settings;
pub mod waiting;

pub use events::{EVENT_PLACES, EVENT_WORDS, PLACE_WORDS, put_event};
pub use known::{Place, insert_stream, look_up, new_stream};
pub use restart::{commit_reset_streams, enable_message_interleaving, rollback_reset_streams};
pub use settings::{set_buffered_amount_low_threshold, set_priority};
pub use waiting::{head_size, parameters_for, reschedule};

// The words of a send queue: its header and its four tables in one array of 20,768 words of 64 bits, one field to a word.
//
//     words               holds                                     rows   words a row, of which used
//         0 to     6      Options, what the queue was created with     1       7   7
//         7 to    17      Totals                                       1      11  11
//        18 to    20      SchedulerState                               1       3   3
//        21 to    31      the least of each 24 active streams         11       1   1
//        32 to   543      Known, the known streams by rising id      256       2   2
//       544 to  3103      OutgoingStream, the streams                256      10   9
//      3104 to 19487      Item, the messages                        1024      16  15
//     19488 to 20767      ActiveStreamInfo, the active streams       256       5   5
//
// A row's words are its struct's fields in their order, but a message's: SSN, retransmissions, unordered, whether it has its numbers, whether it
// expires, message id, protocol id, MID, FSN, time of expiry, then the rest. Where it has no numbers or does not expire their words are 0. A word
// that is too large for its field is read modulo the field's width, a word for a flag is true where it is 1, a pause state's word above 3 is
// resetting, and no stream is remembered where the word for it is 65536 or above. A place is the number of a row; 1024 stands for no message.
#![tactic(auto)]

ghost use Rattle.std.specs.Prelude.{◌≡◌, length};

pub mod active;
pub mod header;
pub mod items;
pub mod known;
pub mod leasts;
pub mod limits;
pub mod streams;

pub use active::{ActiveStreamInfo, SchedulingParameters, load_active, store_active};
pub use header::{
    Gaps, Options, RestartRule, SchedulerState, Totals, load_options, load_scheduler_state,
    load_totals, options_fits, store_options, store_scheduler_state, store_totals, totals_fits,
};
pub use items::{
    Item, MessageNumbers, load_item, load_length, load_next, load_place, mid_in, ssn_in,
    store_item, store_length, store_next, store_place,
};
pub use known::{Found, Known, find_stream, known_fits, load_known, store_known};
pub use leasts::{load_least, store_least};
pub use streams::{OutgoingStream, PauseState, load_stream, store_stream, with_pause};

pub const QUEUE_WORDS: usize = 20768;

// Does nothing at run time; gives a proof that there are 20,768 words.
pub fn whole(queue: &[u64; QUEUE_WORDS])
    ensures { length queue.now ≡ 20768 }
{
    let _words: &[u64] = queue;
}

// A part of the program `replay`: the lines `H kind tsn store`, `V store`, `D bytes` and `G buffer` of the receiving head (document 02,
// 7/13). "Repeats change nothing", nor does a fetch that finds none: both are settled as a refusal is.
#![tactic(auto)]

mod creating;
mod fetching;
mod lent;
mod receiving;
mod state;
mod words;

use creating::{answer_head, answer_lent_head};
use fetching::answer_fetch;
use receiver_words::RECEIVER_WORDS;
use receiving::answer_receive;
pub use state::HEADS;
use trace_text::output::Answers;
use trace_text::state::{PAYLOAD, STATE, STORE};
pub use words::keep_sum;

pub fn answer_receiver(
    head: &mut [u64; RECEIVER_WORDS],
    store: &mut [u8; STORE],
    kept_store: &mut [u8; STORE],
    payload: &[u8; PAYLOAD],
    output: &mut Answers,
    state: &mut [u64; STATE],
    letter: u8,
) {
    match letter {
        b'H' => answer_head(head, store, kept_store, output, state),
        b'D' => answer_receive(head, store, kept_store, payload, output, state),
        b'G' => answer_fetch(head, &*store, kept_store, output, state),
        _ => answer_lent_head(output, state),
    }
}

// The streams: 256 rows of 10 words from word 544 on, 9 of them used. A row does not hold its stream's id: the known streams say it.
ghost use Rattle.std.specs.Prelude.{◌≡◌, ◌<◌};
ghost use Rattle.queue_words.specs.Streams.{pause_state_of, pause_state_word, is_open, is_pending, is_paused_words, is_resetting_words};
ghost use Rattle.queue_words.specs.Streams.{stream_out, stream_row_in, stream_at_words, put_stream_words, put_chain, with_pause};

use crate::QUEUE_WORDS;
use std::convert::From;
use types::{Mid, Ssn};

const BASE: usize = 544;

// "States: open, pending, paused, resetting." Open is the Rust's NotPaused.
#[derive(Clone, Copy, Debug, PartialEq, Eq)]
pub enum PauseState {
    NotPaused = 0,
    Pending = 1,
    Paused = 2,
    Resetting = 3,
}

impl PauseState {
    pub fn is_open(self) -> bool
        ensures { result ≡ is_open self }
    {
        self == PauseState::NotPaused
    }

    pub fn is_pending(self) -> bool
        ensures { result ≡ is_pending self }
    {
        self == PauseState::Pending
    }

    pub fn is_paused(self) -> bool
        ensures { result ≡ is_paused_words self }
    {
        self == PauseState::Paused
    }

    pub fn is_resetting(self) -> bool
        ensures { result ≡ is_resetting_words self }
    {
        self == PauseState::Resetting
    }
}

// The state of a word: 0 to 3 in the order above. A word above 3, which no queue holds, is taken for the last.
impl From<u64> for PauseState {
    ghost from_gives = { λ w p. p ≡ pause_state_of w };

    fn from(w: u64) -> PauseState {
        match w {
            0 => PauseState::NotPaused,
            1 => PauseState::Pending,
            2 => PauseState::Paused,
            _ => PauseState::Resetting,
        }
    }
}

impl From<PauseState> for u64 {
    ghost from_gives = { λ p w. w ≡ pause_state_word p };

    fn from(p: PauseState) -> u64 {
        p as u64
    }
}

#[derive(Clone, Copy, Debug, PartialEq, Eq)]
pub struct OutgoingStream {
    pub priority: u16,
    pub pause_state: PauseState,
    pub next_ssn: Ssn,
    pub next_unordered_mid: Mid,
    pub next_ordered_mid: Mid,
    pub buffered_amount: u64,
    pub low_threshold: u64,
    // The places of the first and the last message, 1024 for none.
    pub first: u64,
    pub last: u64,
}

fn stream_out(queue: &[u64; QUEUE_WORDS], i: usize) -> OutgoingStream
    requires { i < 256 }
    ensures { result ≡ stream_out queue.now i }
{
    let at = BASE + i * 10;
    let pause_state = PauseState::from(queue[at + 1]);
    OutgoingStream {
        priority: (queue[at + 0] % 65536) as u16,
        pause_state,
        next_ssn: Ssn((queue[at + 2] % 65536) as u16),
        next_unordered_mid: Mid((queue[at + 3] % 4294967296) as u32),
        next_ordered_mid: Mid((queue[at + 4] % 4294967296) as u32),
        buffered_amount: queue[at + 5],
        low_threshold: queue[at + 6],
        first: queue[at + 7],
        last: queue[at + 8],
    }
}

fn stream_in(queue: &mut [u64; QUEUE_WORDS], i: usize, s: OutgoingStream)
    requires { i < 256 }
    ensures { queue.new ≡ stream_row_in queue.old i s }
{
    let state = u64::from(s.pause_state);
    let at = BASE + i * 10;
    queue[at + 0] = s.priority as u64;
    queue[at + 1] = state;
    queue[at + 2] = s.next_ssn.0 as u64;
    queue[at + 3] = s.next_unordered_mid.0 as u64;
    queue[at + 4] = s.next_ordered_mid.0 as u64;
    queue[at + 5] = s.buffered_amount;
    queue[at + 6] = s.low_threshold;
    queue[at + 7] = s.first;
    queue[at + 8] = s.last;
}

pub fn load_stream(queue: &[u64; QUEUE_WORDS], i: usize) -> OutgoingStream
    requires { i < 256 }
    ensures { result ≡ stream_at_words queue.now i }
{
    stream_out(queue, i)
}

pub fn store_stream(queue: &mut [u64; QUEUE_WORDS], i: usize, s: OutgoingStream)
    requires { i < 256 }
    ensures { queue.new ≡ put_stream_words queue.old i s }
{
    stream_in(queue, i, s)
}

// Three words of a row: the amount and the ends of the chain.
pub fn store_chain(queue: &mut [u64; QUEUE_WORDS], i: usize, amount: u64, first: u64, last: u64)
    requires { i < 256 }
    ensures { queue.new ≡ put_chain queue.old i amount first last }
{
    let at = BASE + i * 10;
    queue[at + 5] = amount;
    queue[at + 7] = first;
    queue[at + 8] = last;
}

// A stream in another state.
pub fn with_pause(s: OutgoingStream, state: PauseState) -> OutgoingStream
    ensures { result ≡ with_pause s state }
{
    OutgoingStream {
        pause_state: state,
        ..s
    }
}

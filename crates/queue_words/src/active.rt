// The streams that the scheduler lists: 256 rows of 5 words from word 19488 on.
ghost use Rattle.std.specs.Prelude.{◌≡◌, ◌<◌};
ghost use Rattle.queue_words.specs.Active.{active_out, active_in, active_at, put_active_words};
ghost use Rattle.queue_words.specs.Active.{parameters_of, parameters_word};

use crate::QUEUE_WORDS;
use crate::leasts::{GROUP, STALE, store_least};
use std::convert::From;
use types::StreamId;

const BASE: usize = 19488;

#[derive(Clone, Copy, Debug, PartialEq, Eq)]
pub struct ActiveStreamInfo {
    pub stream_id: StreamId,
    // A word of SchedulingParameters.
    pub parameters: u32,
    pub virtual_start_time: u64,
    pub virtual_finish_time: u64,
    pub bytes_remaining: u64,
}

fn active_out(queue: &[u64; QUEUE_WORDS], i: usize) -> ActiveStreamInfo
    requires { i < 256 }
    ensures { result ≡ active_out queue.now i }
{
    let at = BASE + i * 5;
    ActiveStreamInfo {
        stream_id: StreamId((queue[at + 0] % 65536) as u16),
        parameters: (queue[at + 1] % 4294967296) as u32,
        virtual_start_time: queue[at + 2],
        virtual_finish_time: queue[at + 3],
        bytes_remaining: queue[at + 4],
    }
}

fn active_in(queue: &mut [u64; QUEUE_WORDS], i: usize, a: ActiveStreamInfo)
    requires { i < 256 }
    ensures { queue.new ≡ active_in queue.old i a }
{
    let at = BASE + i * 5;
    queue[at + 0] = a.stream_id.0 as u64;
    queue[at + 1] = a.parameters as u64;
    queue[at + 2] = a.virtual_start_time;
    queue[at + 3] = a.virtual_finish_time;
    queue[at + 4] = a.bytes_remaining;
}

pub fn load_active(queue: &[u64; QUEUE_WORDS], i: usize) -> ActiveStreamInfo
    requires { i < 256 }
    ensures { result ≡ active_at queue.now i }
{
    active_out(queue, i)
}

// A store makes the row's group stale.
pub fn store_active(queue: &mut [u64; QUEUE_WORDS], i: usize, a: ActiveStreamInfo)
    requires { i < 256 }
    ensures { queue.new ≡ put_active_words queue.old i a }
{
    active_in(queue, i, a);
    store_least(queue, i / GROUP, STALE);
}

// How a stream's cost is counted: without interleaving each fragment costs 1, with it bytes by the stream's weight.
#[derive(Clone, Copy, Debug, PartialEq, Eq)]
pub enum SchedulingParameters {
    RoundRobin,
    WeightedFairQueuing(u16),
}

// The parameters of a word: a weight below 65,536, else round robin.
impl From<u32> for SchedulingParameters {
    ghost from_gives = { λ w p. p ≡ parameters_of w };

    fn from(w: u32) -> SchedulingParameters {
        if w < 65536 {
            return SchedulingParameters::WeightedFairQueuing(w as u16);
        }
        SchedulingParameters::RoundRobin
    }
}

impl From<SchedulingParameters> for u32 {
    ghost from_gives = { λ p w. w ≡ parameters_word p };

    fn from(p: SchedulingParameters) -> u32 {
        match p {
            SchedulingParameters::RoundRobin => 65536,
            SchedulingParameters::WeightedFairQueuing(weight) => weight as u32,
        }
    }
}

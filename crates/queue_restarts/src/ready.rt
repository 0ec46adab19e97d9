// The ids that are ready to be reset.
ghost use Rattle.std.specs.Prelude.{◌≡◌, ◌≤◌};
ghost use Rattle.queue_streams.specs.Answers.{as_number};
ghost use Rattle.queue_restarts.specs.Ready.{as_ready, paused_at, collected_or16, marked, marked_all, readied, ready, ready_count};

use crate::marking::store_resetting;
use queue_words::QUEUE_WORDS;
use queue_words::header::load_totals;
use queue_words::known::load_known;
use queue_words::limits::{LAST_STREAM, STREAM_ROWS, STREAMS};
use queue_words::streams::load_stream;
use types::Refusal;

// "Ready ids, at most 256, come by value with their count in ascending order". The ids are the first `count`; the others are 0.
#[derive(Clone, Copy)]
pub struct ReadyStreams {
    pub count: usize,
    pub ids: [u16; STREAM_ROWS],
}

fn paused_at(queue: &[u64; QUEUE_WORDS], place: u64) -> bool
    ensures { result ≡ paused_at queue.now place }
{
    if place > LAST_STREAM {
        return false;
    }
    let s = load_stream(queue, place as usize);
    let state = s.pause_state;
    state.is_paused()
}

// The ids of the paused ones among the first n known streams; 16 at the first of these whose place lies outside its table.
fn collect(queue: &[u64; QUEUE_WORDS], n: usize) -> Result<ReadyStreams, Refusal>
    requires { n ≤ 256 }
    ensures { as_ready result ≡ collected_or16 queue.now n }
{
    let mut ids = [0u16; STREAM_ROWS];
    let mut count = 0;
    for i in 0..n {
        let k = load_known(queue, i);
        if k.place > LAST_STREAM {
            return Err(Refusal::WordsBroken);
        }
        let paused = paused_at(queue, k.place);
        if paused {
            ids[count] = k.id.0;
            count += 1;
        }
    }
    Ok(ReadyStreams {
        count: count,
        ids: ids,
    })
}

// "and become resetting".
fn mark(queue: &mut [u64; QUEUE_WORDS], place: u64)
    ensures { queue.new ≡ marked queue.old place }
{
    if place > LAST_STREAM {
        return;
    }
    let s = load_stream(&*queue, place as usize);
    let state = s.pause_state;
    let paused = state.is_paused();
    if paused {
        store_resetting(queue, place as usize);
    }
}

fn mark_all(queue: &mut [u64; QUEUE_WORDS], n: usize)
    requires { n ≤ 256 }
    ensures { queue.new ≡ marked_all queue.old n }
{
    for i in 0..n {
        let k = load_known(&*queue, i);
        mark(queue, k.place);
    }
}

// Ready ids. Nothing is written before every place is known to lie in its table.
pub fn get_streams_ready_to_reset(queue: &mut [u64; QUEUE_WORDS]) -> Result<ReadyStreams, Refusal>
    ensures { readied (as_ready result) queue.new ≡ ready queue.old }
{
    let t = load_totals(&*queue);
    if t.known > STREAMS {
        return Err(Refusal::WordsBroken);
    }
    let r = collect(&*queue, t.known as usize)?;
    mark_all(queue, t.known as usize);
    Ok(r)
}

// How many ids are ready. They are not taken: the question changes nothing, and gives 16 exactly where ready ids do.
pub fn count_streams_ready_to_reset(queue: &[u64; QUEUE_WORDS]) -> Result<u64, Refusal>
    ensures { as_number result ≡ ready_count queue.now }
{
    let t = load_totals(queue);
    if t.known > STREAMS {
        return Err(Refusal::WordsBroken);
    }
    let r = collect(queue, t.known as usize)?;
    Ok(r.count as u64)
}

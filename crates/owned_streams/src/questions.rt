// The questions: each answers the plain value.
ghost use Rattle.std.specs.Prelude.{◌≡◌, ◌≤◌};
ghost use Rattle.queue_words.specs.Find.{Findable};
ghost use Rattle.queue_streams.specs.Number as number;
ghost use Rattle.queue_streams.specs.Flag as flag;
ghost use Rattle.queue_questions.specs.Questions.{stream_or_new, ready_among};
ghost use Rattle.queue_questions.specs.Looked.{Stream};
ghost use Rattle.queue_restarts.specs.Ready.{collected};
ghost use Rattle.linked_streams.specs.Questions.{PriorityMeets, AmountMeets, ThresholdMeets, DataMeets, ReadyMeets};
ghost use Rattle.linked_restarts.specs.Promises.{CountMeets};
ghost use Rattle.owned_streams.specs.Own.{OwnWords, RowsFit};

use queue_streams::known::new_stream;
use queue_words::QUEUE_WORDS;
use queue_words::header::{load_options, load_scheduler_state, load_totals};
use queue_words::known::{Spot, find_own, load_known};
use queue_words::streams::{OutgoingStream, load_stream};

// A stream as it is, or as it would begin.
fn stream_of(queue: &[u64; QUEUE_WORDS], id: u16) -> OutgoingStream
    requires { Findable queue.now id }
    ensures { Stream result ≡ stream_or_new queue.now id }
{
    let spot = find_own(queue, id);
    match spot {
        Spot::At(_, row) => load_stream(queue, row),
        Spot::Gap(_) => {
            let o = load_options(queue);
            new_stream(o)
        }
    }
}

// "A call of its own answers the priority last set or restored, the default where there is none, and changes nothing."
pub fn get_priority(queue: &[u64; QUEUE_WORDS], id: u16) -> u16
    requires { OwnWords queue.now }
    ensures { PriorityMeets queue.now id (number.Value result) }
{
    let s = stream_of(queue, id);
    s.priority
}

// A stream's amount.
pub fn buffered_amount(queue: &[u64; QUEUE_WORDS], id: u16) -> u64
    requires { OwnWords queue.now }
    ensures { AmountMeets queue.now id (number.Value result) }
{
    let s = stream_of(queue, id);
    s.buffered_amount
}

// A stream's threshold.
pub fn buffered_amount_low_threshold(queue: &[u64; QUEUE_WORDS], id: u16) -> u64
    requires { OwnWords queue.now }
    ensures { ThresholdMeets queue.now id (number.Value result) }
{
    let s = stream_of(queue, id);
    s.low_threshold
}

// Whether a stream waits: the scheduler has a row.
pub fn has_data_to_send(queue: &[u64; QUEUE_WORDS]) -> bool
    requires { OwnWords queue.now }
    ensures { DataMeets queue.now (flag.Value result) }
{
    let s = load_scheduler_state(queue);
    s.active > 0
}

fn any_paused(queue: &[u64; QUEUE_WORDS], n: usize) -> bool
    requires { RowsFit queue.now n × (n ≤ 256) }
    ensures { flag.Value result ≡ ready_among queue.now 0 n }
{
    for i in 0..n {
        let k = load_known(queue, i);
        let s = load_stream(queue, k.place as usize);
        let state = s.pause_state;
        let paused = state.is_paused();
        if paused {
            return true;
        }
    }
    false
}

// Whether a stream is paused.
pub fn has_streams_ready_to_be_reset(queue: &[u64; QUEUE_WORDS]) -> bool
    requires { OwnWords queue.now }
    ensures { ReadyMeets queue.now (flag.Value result) }
{
    let t = load_totals(queue);
    any_paused(queue, t.known as usize)
}

fn count_paused(queue: &[u64; QUEUE_WORDS], n: usize) -> usize
    requires { RowsFit queue.now n × (n ≤ 256) }
    ensures { result ≡ (collected queue.now n).count }
{
    let mut count = 0;
    for i in 0..n {
        let k = load_known(queue, i);
        let s = load_stream(queue, k.place as usize);
        let state = s.pause_state;
        let paused = state.is_paused();
        if paused {
            count += 1;
        }
    }
    count
}

// How many streams are paused.
pub fn count_streams_ready_to_reset(queue: &[u64; QUEUE_WORDS]) -> u64
    requires { OwnWords queue.now }
    ensures { CountMeets queue.now (number.Value result) }
{
    let t = load_totals(queue);
    count_paused(queue, t.known as usize) as u64
}

// Setting a stream's priority and its threshold. Both make the stream known.
ghost use Rattle.std.specs.Prelude.{◌≡◌, ◌<◌, ◌≤◌, length};
ghost use Rattle.queue_words.specs.Header.{options_at};
ghost use Rattle.queue_words.specs.Known.{known_count};
ghost use Rattle.queue_words.specs.Streams.{stream_at_words, put_stream_words};
ghost use Rattle.queue_streams.specs.Answers.{as_call};
ghost use Rattle.queue_streams.specs.Events.{event_words};
ghost use Rattle.queue_streams.specs.Settings.{called, called_with, with_priority_words, with_threshold_words, set_priority_words, set_threshold_words, raised, threshold_at};
ghost use Rattle.queue_streams.specs.Known.{new_stream_words, inserted};
ghost use Rattle.queue_streams.specs.Call.{Accepted};

use crate::events::{EVENT_WORDS, put_event};
use crate::known::{Place, insert_stream, look_up, new_stream};
use queue_words::QUEUE_WORDS;
use queue_words::header::load_options;
use queue_words::streams::{load_stream, store_stream};
use types::Refusal;

// A known stream's priority. "a priority set in between waits for that": the scheduler stays as it is.
pub fn set_priority_in(queue: &mut [u64; QUEUE_WORDS], priority: u16, row: usize)
    requires { row < 256 }
    ensures { queue.new ≡ put_stream_words queue.old row (with_priority_words (stream_at_words queue.old row) priority) }
{
    let mut s = load_stream(&*queue, row);
    s.priority = priority;
    store_stream(queue, row, s);
}

// A stream made known with a priority.
pub fn set_priority_of_new(queue: &mut [u64; QUEUE_WORDS], id: u16, priority: u16, position: usize)
    requires { (position ≤ known_count queue.old) × (known_count queue.old < 256) }
    ensures { queue.new ≡ inserted queue.old position id (with_priority_words (new_stream_words (options_at queue.old)) priority) }
{
    let o = load_options(&*queue);
    let mut s = new_stream(o);
    s.priority = priority;
    insert_stream(queue, position, id, s);
}

pub fn set_priority(
    queue: &mut [u64; QUEUE_WORDS],
    id: u16,
    priority: u16,
) -> Result<usize, Refusal>
    ensures { called (as_call result) queue.new ≡ set_priority_words queue.old id priority }
{
    let place = look_up(&*queue, id)?;
    match place {
        Place::Row(row) => set_priority_in(queue, priority, row),
        Place::New(position) => set_priority_of_new(queue, id, priority, position),
    }
    Ok(0)
}

// "also when a threshold below the amount is raised to or past it".
fn raises(amount: u64, old: u64, new: u64) -> bool
    ensures { result ≡ raised amount old new }
{
    old < amount && amount <= new
}

// A known stream's threshold: with its event, if one is due; how many that are.
pub fn set_threshold_in(
    queue: &mut [u64; QUEUE_WORDS],
    events: &mut [u64],
    id: u16,
    threshold: u64,
    row: usize,
) -> usize
    requires { (row < 256) × (event_words ≤ length events.old) }
    ensures { called_with (Accepted result) queue.new events.new ≡ threshold_at queue.old events.old id threshold row (stream_at_words queue.old row) }
{
    let mut s = load_stream(&*queue, row);
    let fires = raises(s.buffered_amount, s.low_threshold, threshold);
    s.low_threshold = threshold;
    store_stream(queue, row, s);
    if fires {
        put_event(events, 0, 1, id as u64, s.buffered_amount);
        return 1;
    }
    0
}

// A stream made known with a threshold.
pub fn set_threshold_of_new(
    queue: &mut [u64; QUEUE_WORDS],
    id: u16,
    threshold: u64,
    position: usize,
)
    requires { (position ≤ known_count queue.old) × (known_count queue.old < 256) }
    ensures { queue.new ≡ inserted queue.old position id (with_threshold_words (new_stream_words (options_at queue.old)) threshold) }
{
    let o = load_options(&*queue);
    let mut s = new_stream(o);
    s.low_threshold = threshold;
    insert_stream(queue, position, id, s);
}

pub fn set_buffered_amount_low_threshold(
    queue: &mut [u64; QUEUE_WORDS],
    events: &mut [u64],
    id: u16,
    threshold: u64,
) -> Result<usize, Refusal>
    ensures { called_with (as_call result) queue.new events.new ≡ set_threshold_words queue.old events.old id threshold }
{
    if events.len() < EVENT_WORDS {
        return Err(Refusal::EventListShort);
    }
    let place = look_up(&*queue, id)?;
    match place {
        Place::Row(row) => Ok(set_threshold_in(queue, events, id, threshold, row)),
        Place::New(position) => {
            set_threshold_of_new(queue, id, threshold, position);
            Ok(0)
        }
    }
}

// Closing a stream (Rust: prepare_reset_stream): "It drops every message at offset 0; a remaining half-sent one makes the stream
// pending, none makes it paused." The chain is not walked before the first message goes.
ghost use Rattle.std.specs.Prelude.{◌≡◌, true, ◌<◌};
ghost use Rattle.queue_words.specs.Streams.{is_open, stream_at_words};
ghost use Rattle.queue_streams.specs.Settings.{called_with};
ghost use Rattle.queue_streams.specs.Call.{Accepted};
ghost use Rattle.queue_closing.specs.Close.{close_open_words, close_in};
ghost use Rattle.linked_dropping.specs.Meets.{CloseMeets};
ghost use Rattle.owned_streams.specs.Own.{OwnWords};
ghost use Rattle.owned_closing.specs.Own.{closing_as, MayClose};

use crate::refusals::ClosingRefusal;
use queue_closing::close::{close_new, sweep_behind, sweep_whole};
use queue_streams::events::EVENT_WORDS;
use queue_streams::known::Place;
use queue_streams::owned::look_up_own;
use queue_words::QUEUE_WORDS;
use queue_words::items::load_item;
use queue_words::limits::NO_MESSAGE;
use queue_words::streams::{OutgoingStream, PauseState, load_stream, store_stream, with_pause};
use stream_scheduler::own::remove_own;

// An open stream closed. The events written.
fn close_open(
    queue: &mut [u64; QUEUE_WORDS],
    events: &mut [u64],
    id: u16,
    row: usize,
    s: OutgoingStream,
) -> usize
    requires { MayClose queue.old id row s }
    ensures { called_with (Accepted result) queue.new events.new ≡ close_open_words queue.old events.old id row s }
{
    if s.first == NO_MESSAGE {
        let o = with_pause(s, PauseState::Paused);
        store_stream(queue, row, o);
        return 0;
    }
    let m = load_item(&*queue, s.first as usize);
    if m.offset > 0 {
        return sweep_behind(queue, events, id, row, s, m.next);
    }
    remove_own(queue, id);
    sweep_whole(queue, events, id, row, s)
}

// "Closing changes nothing unless the stream is open."
fn close_in(queue: &mut [u64; QUEUE_WORDS], events: &mut [u64], id: u16, row: usize) -> usize
    requires { (row < 256) × (is_open (stream_at_words queue.old row).pause_state ≡ true → MayClose queue.old id row (stream_at_words queue.old row)) }
    ensures { called_with (Accepted result) queue.new events.new ≡ close_in queue.old events.old id row }
{
    let s = load_stream(&*queue, row);
    let state = s.pause_state;
    let open = state.is_open();
    if open {
        return close_open(queue, events, id, row, s);
    }
    0
}

// Closes a stream; one that is not known becomes known and paused. How many events are written.
pub fn prepare_reset_stream(
    queue: &mut [u64; QUEUE_WORDS],
    events: &mut [u64],
    id: u16,
) -> Result<usize, ClosingRefusal>
    requires { OwnWords queue.old }
    ensures { CloseMeets queue.old events.old queue.new events.new id (closing_as result) }
{
    if events.len() < EVENT_WORDS {
        return Err(ClosingRefusal::EventListShort);
    }
    let Some(place) = look_up_own(&*queue, id) else {
        return Err(ClosingRefusal::StreamsFull);
    };
    match place {
        Place::Row(row) => Ok(close_in(queue, events, id, row)),
        Place::New(position) => {
            close_new(queue, id, position);
            Ok(0)
        }
    }
}

// Discarding a message (Rust: discard).
ghost use Rattle.std.specs.Prelude.{◌≡◌, ◌<◌};
ghost use Rattle.queue_words.specs.Streams.{stream_at_words};
ghost use Rattle.queue_streams.specs.Answers.{as_call};
ghost use Rattle.queue_streams.specs.Settings.{called_with};
ghost use Rattle.queue_messages.specs.Discard.{discard_in, discard};

use message_chains::dropping::drop_first;
use queue_streams::events::EVENT_WORDS;
use queue_words::QUEUE_WORDS;
use queue_words::items::load_item;
use queue_words::known::{Found, find_stream};
use queue_words::limits::NO_MESSAGE;
use queue_words::streams::load_stream;
use types::Refusal;

fn discard_in(
    queue: &mut [u64; QUEUE_WORDS],
    events: &mut [u64],
    id: u16,
    message_id: u32,
    row: usize,
) -> Result<usize, Refusal>
    requires { row < 256 }
    ensures { called_with (as_call result) queue.new events.new ≡ discard_in queue.old events.old id message_id row (stream_at_words queue.old row) }
{
    let s = load_stream(&*queue, row);
    if s.first > NO_MESSAGE {
        return Err(Refusal::WordsBroken);
    }
    if s.first == NO_MESSAGE {
        return Ok(0);
    }
    let m = load_item(&*queue, s.first as usize);
    if m.message_id.0 == message_id {
        return drop_first(queue, events, 0, id, row);
    }
    Ok(0)
}

// "Discard acts only on a head with that id."
pub fn discard(
    queue: &mut [u64; QUEUE_WORDS],
    events: &mut [u64],
    id: u16,
    message_id: u32,
) -> Result<usize, Refusal>
    ensures { called_with (as_call result) queue.new events.new ≡ discard queue.old events.old id message_id }
{
    if events.len() < EVENT_WORDS {
        return Err(Refusal::EventListShort);
    }
    let found = find_stream(&*queue, id);
    match found {
        Found::At(_, row) => discard_in(queue, events, id, message_id, row),
        Found::Gap(_) => Ok(0),
        Found::Broken => Err(Refusal::WordsBroken),
    }
}

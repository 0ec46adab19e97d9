// "Discard acts only on a head with that id."
ghost use Rattle.std.specs.Prelude.{◌≡◌, ◌<◌};
ghost use Rattle.queue_words.specs.Streams.{stream_at_words};
ghost use Rattle.queue_streams.specs.Settings.{called_with};
ghost use Rattle.queue_streams.specs.Call.{Accepted};
ghost use Rattle.queue_messages.specs.Discard.{discard_in};
ghost use Rattle.linked_dropping.specs.Meets.{DiscardMeets};
ghost use Rattle.owned_streams.specs.Own.{OwnWords};
ghost use Rattle.owned_closing.specs.Own.{discarded_as, MayDiscard};

use crate::refusals::EventListShort;
use message_chains::dropping::drop_own;
use queue_streams::events::EVENT_WORDS;
use queue_words::QUEUE_WORDS;
use queue_words::items::load_item;
use queue_words::known::{Spot, find_own};
use queue_words::limits::NO_MESSAGE;
use queue_words::streams::load_stream;

fn discard_in(
    queue: &mut [u64; QUEUE_WORDS],
    events: &mut [u64],
    id: u16,
    message_id: u32,
    row: usize,
) -> usize
    requires { MayDiscard queue.old id message_id row }
    ensures { called_with (Accepted result) queue.new events.new ≡ discard_in queue.old events.old id message_id row (stream_at_words queue.old row) }
{
    let s = load_stream(&*queue, row);
    if s.first == NO_MESSAGE {
        return 0;
    }
    let m = load_item(&*queue, s.first as usize);
    if m.message_id.0 == message_id {
        return drop_own(queue, events, 0, id, row);
    }
    0
}

// How many events are written.
pub fn discard(
    queue: &mut [u64; QUEUE_WORDS],
    events: &mut [u64],
    id: u16,
    message_id: u32,
) -> Result<usize, EventListShort>
    requires { OwnWords queue.old }
    ensures { DiscardMeets queue.old events.old queue.new events.new id message_id (discarded_as result) }
{
    if events.len() < EVENT_WORDS {
        return Err(EventListShort);
    }
    let spot = find_own(&*queue, id);
    match spot {
        Spot::At(_, row) => Ok(discard_in(queue, events, id, message_id, row)),
        Spot::Gap(_) => Ok(0),
    }
}

// Events written one behind the other. A list that is full, or has fewer than 2,305 places, takes no more, and the count is then
// 2,306: too many.
ghost use Rattle.std.specs.Prelude.{◌≡◌};
ghost use Rattle.message_chains.specs.Notes.{notes, noted, low_noted, lifecycle_noted};

use queue_streams::events::{EVENT_WORDS, LAST_EVENT, TOO_MANY_EVENTS, put_event};

pub fn note(events: &mut [u64], k: usize, kind: u64, number: u64, amount: u64) -> usize
    ensures { notes events.new result ≡ noted events.old k kind number amount }
{
    if k > LAST_EVENT {
        return TOO_MANY_EVENTS;
    }
    if events.len() < EVENT_WORDS {
        return TOO_MANY_EVENTS;
    }
    put_event(events, k, kind, number, amount);
    k + 1
}

// "Low fires when an amount goes from above its threshold to at or below it"; it tells the amount after the fall.
pub fn low_event(
    events: &mut [u64],
    k: usize,
    kind: u64,
    number: u64,
    threshold: u64,
    old: u64,
    new: u64,
) -> usize
    ensures { notes events.new result ≡ low_noted events.old k kind number threshold old new }
{
    if old <= threshold {
        return k;
    }
    if new > threshold {
        return k;
    }
    note(events, k, kind, number, new)
}

// "then 3 and 4 for a drop with an id"; they "carry 0".
pub fn lifecycle_events(events: &mut [u64], k: usize, id: u64) -> usize
    ensures { notes events.new result ≡ lifecycle_noted events.old k id }
{
    if id == 0 {
        return k;
    }
    let k1 = note(events, k, 3, id, 0);
    note(events, k1, 4, id, 0)
}

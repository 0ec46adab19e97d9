// The lent list of events. "An event is kind and number"; kinds 1 and 2 carry the amount "as a third number" (document 02, 2/13).
ghost use Rattle.std.specs.Prelude.{◌≡◌, ◌<◌, ◌≤◌, length};
ghost use Rattle.queue_model.specs.Refusals.{event_places};
ghost use Rattle.queue_streams.specs.Events.{event_words, put_event};

// The places that the list must have.
pub const EVENT_PLACES: usize = 2305;

// The last of them, and the count that stands for more events than they hold.
pub const LAST_EVENT: usize = EVENT_PLACES - 1;

pub const TOO_MANY_EVENTS: usize = EVENT_PLACES + 1;

// The words of a place: kind, number and amount.
pub const PLACE_WORDS: usize = 3;

// The words that the list must have.
pub const EVENT_WORDS: usize = EVENT_PLACES * PLACE_WORDS;

pub fn put_event(events: &mut [u64], k: usize, kind: u64, number: u64, amount: u64)
    requires { (k < event_places) × (event_words ≤ length events.old) }
    ensures { events.new ≡ put_event events.old k kind number amount }
{
    let at = k * PLACE_WORDS;
    events[at] = kind;
    events[at + 1] = number;
    events[at + 2] = amount;
}

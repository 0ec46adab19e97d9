// Adding a message to a queue that its own calls alone have changed. What is left and answered is what the checked call leaves and answers.
// There is no test for 16, and none of the store's length.
#![tactic(auto)]

ghost use Rattle.std.specs.Prelude.{◌≡◌};
ghost use Rattle.types.specs.Refusal as types_refusal;
ghost use Rattle.queue_messages.specs.Add.{added, add_to};
ghost use Rattle.queue_streams.specs.Known.{placed};
ghost use Rattle.queue_state.specs.Good.{Good};
ghost use Rattle.owned_adding.specs.Add.{refusal_number, OneOf, call_of, MayAdd, OwnedAdd};

use queue_messages::Message;
use queue_messages::adding::{append, asked_code, full_code, make_known, row_for, stream_for};
use queue_streams::known::Place;
use queue_streams::owned::look_up_own;
use queue_words::{QUEUE_WORDS, whole};
use std::convert::From;

// What is refused: a time or lifetime, the payload's length, a 257th stream, a 1,025th message, a payload longer than the free bytes.
#[derive(Clone, Copy, Debug, PartialEq, Eq)]
pub enum Refusal {
    Time,
    Payload,
    Streams,
    Messages,
    Store,
}

// As the checked call says it.
impl From<Refusal> for types::Refusal {
    ghost from_gives = { λ own r. types_refusal.refusal_number r ≡ refusal_number own };

    fn from(own: Refusal) -> types::Refusal {
        match own {
            Refusal::Time => types::Refusal::TimeLate,
            Refusal::Payload => types::Refusal::PayloadWrong,
            Refusal::Streams => types::Refusal::StreamsFull,
            Refusal::Messages => types::Refusal::MessagesFull,
            Refusal::Store => types::Refusal::StoreFull,
        }
    }
}

// The refusals of what is asked for: of the time or of the payload.
fn asked_refusal(r: types::Refusal) -> Refusal
    requires { OneOf 4 5 (types_refusal.refusal_number r) }
    ensures { refusal_number result ≡ types_refusal.refusal_number r }
{
    match r {
        types::Refusal::TimeLate => Refusal::Time,
        _ => Refusal::Payload,
    }
}

// The refusals where no message more fits.
fn full_refusal(r: types::Refusal) -> Refusal
    requires { OneOf 7 8 (types_refusal.refusal_number r) }
    ensures { refusal_number result ≡ types_refusal.refusal_number r }
{
    match r {
        types::Refusal::MessagesFull => Refusal::Messages,
        _ => Refusal::Store,
    }
}

// A message for a stream that is known, or that it makes known.
fn add_own(
    queue: &mut [u64; QUEUE_WORDS],
    store: &mut [u8],
    time: u64,
    m: Message,
    payload: &[u8],
    place: Place,
) -> Result<(), Refusal>
    requires { MayAdd queue.old store.old time m payload.now (placed place) }
    ensures { added (call_of result) queue.new store.new ≡ add_to queue.old store.old time m payload.now (placed place) }
{
    whole(&*queue);
    if let Err(full) = full_code(&*queue, store.len() as u64, payload.len() as u64) {
        return Err(full_refusal(full));
    }
    let s = stream_for(&*queue, Ok(place));
    let row = row_for(&*queue, Ok(place));
    make_known(queue, Ok(place), m.stream_id.0);
    append(queue, store, time, m, payload, row, s);
    Ok(())
}

// Adds a message; the store is the queue's own.
pub fn add(
    queue: &mut [u64; QUEUE_WORDS],
    store: &mut [u8],
    time: u64,
    m: Message,
    payload: &[u8],
) -> Result<(), Refusal>
    requires { Good queue.old store.old }
    ensures { OwnedAdd queue.old store.old time m payload.now result queue.new store.new }
{
    let lifetime = m.lifetime;
    if let Err(asked) = asked_code(time, lifetime, payload.len() as u64) {
        return Err(asked_refusal(asked));
    }
    let Some(place) = look_up_own(&*queue, m.stream_id.0) else {
        return Err(Refusal::Streams);
    };
    add_own(queue, store, time, m, payload, place)
}

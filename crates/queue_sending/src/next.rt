// What the call does next, once the expired heads are passed over: decided by reading only, before anything is sent.
ghost use Rattle.std.specs.Prelude.{◌≡◌};
ghost use Rattle.queue_streams.specs.Answers.{as_call};
ghost use Rattle.queue_sending.specs.Answers.{as_look, as_next};
ghost use Rattle.queue_sending.specs.Next.{next_found, next_passed};

use crate::choice::{Ahead, look_ahead};
use crate::fragment::chosen_code;
use queue_streams::events::EVENT_PLACES;
use queue_words::QUEUE_WORDS;
use types::Refusal;
use types::refusal::Broken;

// It says that nothing waits; or it hands out from a head, by the scheduler's row, its stream's id and row. Both after so many events.
#[derive(Clone, Copy, Debug, PartialEq, Eq)]
pub enum Next {
    Nothing(usize),
    Chosen(usize, usize, u16, usize),
}

// The answer, handed on field by field: copied whole, the bytes between its fields would be carried through memory.
pub fn handed_on(n: Result<Next, Refusal>) -> Result<Next, Refusal>
    ensures { result ≡ n }
{
    match n {
        Ok(Next::Nothing(k)) => Ok(Next::Nothing(k)),
        Ok(Next::Chosen(k, at, id, row)) => Ok(Next::Chosen(k, at, id, row)),
        Err(r) => Err(r),
    }
}

// What follows what was found, after k events; a head that is still expired gets 16.
pub fn next_found(
    queue: &[u64; QUEUE_WORDS],
    len: u64,
    room: u64,
    size: u64,
    k: usize,
    found: Result<Ahead, Broken>,
) -> Result<Next, Refusal>
    ensures { as_next result ≡ next_found queue.now len room size k (as_look found) }
{
    match found {
        Ok(Ahead::Nothing) => {
            if k > EVENT_PLACES {
                return Err(Refusal::WordsBroken);
            }
            Ok(Next::Nothing(k))
        }
        Ok(Ahead::Chosen(at, id, row)) => {
            chosen_code(queue, len, room, size, k, at, row)?;
            Ok(Next::Chosen(k, at, id, row))
        }
        Ok(Ahead::Expired(_, _)) => Err(Refusal::WordsBroken),
        Err(_) => Err(Refusal::WordsBroken),
    }
}

// What follows heads that were passed over.
pub fn next_passed(
    queue: &[u64; QUEUE_WORDS],
    len: u64,
    room: u64,
    time: u64,
    size: u64,
    passed: Result<usize, Refusal>,
) -> Result<Next, Refusal>
    ensures { as_next result ≡ next_passed queue.now len room time size (as_call passed) }
{
    let k = passed?;
    let found = look_ahead(queue, time);
    next_found(queue, len, room, size, k, found)
}

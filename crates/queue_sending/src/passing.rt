// Passing over expired heads: by a loop that keeps in a log what each drop changes, as long as the log has room; and by one that keeps
// nothing.
ghost use Rattle.std.specs.Prelude.{◌≡◌, ◌*◌, ◌≤◌, length};
ghost use Rattle.queue_streams.specs.Answers.{as_call};
ghost use Rattle.queue_streams.specs.Settings.{called_with};
ghost use Rattle.queue_sending.specs.Answers.{as_look};
ghost use Rattle.queue_sending.specs.Choice.{look_ahead};
ghost use Rattle.queue_sending.specs.Passing.{Kept};
ghost use Rattle.queue_sending.specs.Produce.{expired_dropped, passed};
ghost use Rattle.queue_sending.specs.Look.{Expired};

use crate::choice::{Ahead, look_ahead};
use message_chains::dropping::drop_first;
use queue_words::limits::{LAST_MESSAGE, LAST_STREAM_ROW};
use queue_words::streams::load_stream;
use queue_words::{QUEUE_WORDS, whole};
use types::Refusal;
use types::refusal::Broken;
use undo_log::keep_drop;

// "An expired head of the chosen stream is dropped, half-sent or not": the events so far, or 16.
fn drop_expired(
    queue: &mut [u64; QUEUE_WORDS],
    events: &mut [u64],
    k: usize,
    id: u16,
    row: usize,
) -> Result<usize, Refusal>
    ensures { called_with (as_call result) queue.new events.new ≡ expired_dropped queue.old events.old k id row }
{
    if row > LAST_STREAM_ROW {
        return Err(Refusal::WordsBroken);
    }
    let s = load_stream(&*queue, row);
    if s.first > LAST_MESSAGE {
        return Err(Refusal::WordsBroken);
    }
    drop_first(queue, events, k, id, row)
}

// Passes over the expired heads, so that the choice is one to send from or none: a loop, "with the same answer, events, fragment and
// next state on every input" as calls with one waiting message fewer. What it leaves where it is refused is not kept.
pub fn pass_over(
    queue: &mut [u64; QUEUE_WORDS],
    events: &mut [u64],
    time: u64,
    waiting: usize,
    k: usize,
) -> Result<usize, Refusal>
    ensures { called_with (as_call result) queue.new events.new ≡ passed waiting queue.old events.old time k }
{
    let mut left = waiting;
    let mut count = k;
    loop {
        let found = look_ahead(&*queue, time)?;
        match found {
            Ahead::Nothing => return Ok(count),
            Ahead::Chosen(_, _, _) => return Ok(count),
            Ahead::Expired(id, row) => {
                if left == 0 {
                    return Err(Refusal::WordsBroken);
                }
                count = drop_expired(queue, events, count, id, row)?;
                left -= 1;
            }
        }
    }
}

// How far passing over has come: what is found then, how many messages may still be dropped, how many events are written and how many
// drops are in the log.
#[derive(Clone, Copy, Debug, PartialEq, Eq)]
pub struct Passing {
    pub found: Result<Ahead, Broken>,
    pub left: usize,
    pub count: usize,
    pub drops: usize,
}

// Passes over expired heads as long as the log has room, from the head of the stream `first` in row `place` on, which a look has found.
// It stops at what is not expired, and at an expired head that does not go into the log or cannot be dropped: of that one nothing has
// changed.
pub fn pass_some(
    queue: &mut [u64; QUEUE_WORDS],
    events: &mut [u64],
    log: &mut [u64],
    room: usize,
    time: u64,
    waiting: usize,
    k: usize,
    first: u16,
    place: usize,
) -> Passing
    requires { (room * 20 ≤ length log.old) × (Expired first place ≡ look_ahead queue.old time) }
    ensures { (as_look result.found ≡ look_ahead queue.new time) × Kept room queue.old events.old time waiting k log.new queue.new events.new result.left result.count result.drops }
{
    let mut left = waiting;
    let mut count = k;
    let mut drops = 0;
    let mut id = first;
    let mut row = place;
    loop {
        if drops >= room {
            return Passing {
                found: Ok(Ahead::Expired(id, row)),
                left,
                count,
                drops,
            };
        }
        if left == 0 {
            return Passing {
                found: Ok(Ahead::Expired(id, row)),
                left,
                count,
                drops,
            };
        }
        whole(&*queue);
        keep_drop(log, drops, &*queue, id, row);
        let dropped = drop_expired(queue, events, count, id, row);
        let Ok(k1) = dropped else {
            return Passing {
                found: Ok(Ahead::Expired(id, row)),
                left,
                count,
                drops,
            };
        };
        count = k1;
        left -= 1;
        drops += 1;
        let found = look_ahead(&*queue, time);
        let Ok(Ahead::Expired(i, r)) = found else {
            return Passing {
                found,
                left,
                count,
                drops,
            };
        };
        id = i;
        row = r;
    }
}

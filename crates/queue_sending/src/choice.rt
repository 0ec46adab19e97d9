// The choice of the stream to send from, and a look at its head.
ghost use Rattle.std.specs.Prelude.{◌≡◌, ◌<◌};
ghost use Rattle.queue_sending.specs.Answers.{as_look};
ghost use Rattle.queue_sending.specs.Choice.{expired_by, look_at_words, look_for_words, look_ahead};

use queue_words::QUEUE_WORDS;
use queue_words::active::load_active;
use queue_words::items::{Item, load_item};
use queue_words::known::{Found, find_stream};
use queue_words::limits::{LAST_MESSAGE, LAST_STREAM_ROW};
use queue_words::streams::load_stream;
use stream_scheduler::{Peeked, peek};
use types::refusal::Broken;

// What a look at the scheduler's choice finds: nothing waits; an expired head, by its stream's id and row; a head to send, by the
// scheduler's row, its stream's id and row.
#[derive(Clone, Copy, Debug, PartialEq, Eq)]
pub enum Ahead {
    Nothing,
    Expired(u16, usize),
    Chosen(usize, u16, usize),
}

// "A message expires exactly if its time is at or before now".
pub fn expired(m: Item, time: u64) -> bool
    ensures { result ≡ expired_by m time }
{
    let e = m.expires_at;
    match e {
        None => false,
        Some(t) => t <= time,
    }
}

// 16: "The scheduler chose a stream with no waiting message".
fn look_at(
    queue: &[u64; QUEUE_WORDS],
    time: u64,
    at: usize,
    id: u16,
    row: usize,
) -> Result<Ahead, Broken>
    requires { row < 256 }
    ensures { as_look result ≡ look_at_words queue.now time at id row }
{
    let s = load_stream(queue, row);
    if s.first > LAST_MESSAGE {
        return Err(Broken);
    }
    let m = load_item(queue, s.first as usize);
    let gone = expired(m, time);
    if gone {
        return Ok(Ahead::Expired(id, row));
    }
    Ok(Ahead::Chosen(at, id, row))
}

fn look_for(queue: &[u64; QUEUE_WORDS], time: u64, at: usize, id: u16) -> Result<Ahead, Broken>
    ensures { as_look result ≡ look_for_words queue.now time at id }
{
    let found = find_stream(queue, id);
    match found {
        Found::At(_, row) => look_at(queue, time, at, id, row),
        Found::Gap(_) => Err(Broken),
        Found::Broken => Err(Broken),
    }
}

pub fn look_ahead(queue: &[u64; QUEUE_WORDS], time: u64) -> Result<Ahead, Broken>
    ensures { as_look result ≡ look_ahead queue.now time }
{
    let p = peek(queue);
    match p {
        Peeked::At(at) => {
            if at > LAST_STREAM_ROW {
                return Err(Broken);
            }
            let a = load_active(queue, at);
            look_for(queue, time, at, a.stream_id.0)
        }
        Peeked::Nothing => Ok(Ahead::Nothing),
        Peeked::Broken => Err(Broken),
    }
}

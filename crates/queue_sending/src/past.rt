// Passing over expired heads so that a refused call leaves all as it was, and what the call then does next.
ghost use Rattle.std.specs.Prelude.{◌≡◌, ◌*◌, ◌≤◌, length};
ghost use Rattle.queue_streams.specs.Events.{event_words};
ghost use Rattle.undo_log.specs.Log.{undone};
ghost use Rattle.queue_sending.specs.Answers.{as_look, as_next};
ghost use Rattle.queue_sending.specs.Choice.{look_ahead};
ghost use Rattle.queue_sending.specs.Next.{next_found, Leads};
ghost use Rattle.queue_sending.specs.Produce.{copied, past_from};
ghost use Rattle.queue_sending.specs.Look.{Expired};

use crate::choice::Ahead;
use crate::next::{Next, handed_on, next_found, next_passed};
use crate::passing::{Passing, pass_over, pass_some};
use queue_streams::events::{EVENT_WORDS, PLACE_WORDS};
use queue_words::QUEUE_WORDS;
use types::Refusal;
use undo_log::{ENTRY, HEADER, undo};

// The events that one drop writes at most, and their words.
const DROP_EVENTS: usize = 4;

const FIRST_EVENTS: usize = DROP_EVENTS * PLACE_WORDS;

// How many drops a longer log has room for, the words of it, the most events before it, and the words of those and of its drops' events.
const MORE: usize = 16;

const MORE_LOG: usize = MORE * ENTRY;

const MORE_BEFORE: usize = DROP_EVENTS;

const MORE_EVENTS: usize = (MORE_BEFORE + MORE * DROP_EVENTS) * PLACE_WORDS;

const MANY: usize = 111;

const MANY_LOG: usize = MANY * ENTRY;

const MANY_BEFORE: usize = MORE_BEFORE + MORE * DROP_EVENTS;

const MANY_EVENTS: usize = (MANY_BEFORE + MANY * DROP_EVENTS) * PLACE_WORDS;

// The first n words of one list go to another.
fn copy_words(to: &mut [u64], from: &[u64], n: usize)
    requires { (n ≤ length from.now) × (n ≤ length to.old) }
    ensures { to.new ≡ copied to.old from.now n }
{
    to[..n].copy_from_slice(&from[..n]);
}

// Passes over expired heads after k events, however many. The words and the events' places are saved before, and put back where the
// call is refused: what is refused changes nothing. Called from two places: a compiler that sees but one call puts its large frame into
// the path of few expired heads.
fn pass_copied(
    queue: &mut [u64; QUEUE_WORDS],
    store: &[u8],
    events: &mut [u64],
    buffer: &[u8],
    time: u64,
    size: u64,
    waiting: usize,
    k: usize,
) -> Result<Next, Refusal>
    requires { event_words ≤ length events.old }
    ensures { Leads (as_next result) queue.new store.now events.new buffer.now size (past_from queue.old store.now events.old buffer.now time size waiting k) }
{
    let words = *queue;
    let mut saved = [0u64; EVENT_WORDS];
    copy_words(&mut saved, &*events, EVENT_WORDS);
    let passed = pass_over(queue, events, time, waiting, k);
    let n = next_passed(
        &*queue,
        store.len() as u64,
        buffer.len() as u64,
        time,
        size,
        passed,
    );
    let refused = n.is_err();
    if refused {
        *queue = words;
        copy_words(events, &saved, EVENT_WORDS);
        return n;
    }
    n
}

// Puts back what drops have changed: their rows from the log, then the header and the first events' places as they were saved.
fn put_back(
    queue: &mut [u64; QUEUE_WORDS],
    events: &mut [u64],
    log: &[u64],
    drops: usize,
    header: &[u64; HEADER],
    saved: &[u64],
)
    requires { (drops * 20 ≤ length log.now) × (length saved.now ≤ length events.old) }
    ensures { (queue.new ≡ copied (undone log.now drops queue.old) header.now 32) × (events.new ≡ copied events.old saved.now (length saved.now)) }
{
    undo(queue, log, drops);
    copy_words(queue, header, HEADER);
    copy_words(events, saved, saved.len());
}

// What follows where passing over has come to an end.
fn next_here(
    queue: &[u64; QUEUE_WORDS],
    store: &[u8],
    buffer: &[u8],
    size: u64,
    p: Passing,
) -> Result<Next, Refusal>
    ensures { as_next result ≡ next_found queue.now (length store.now) (length buffer.now) size p.count (as_look p.found) }
{
    let found = p.found;
    next_found(
        queue,
        store.len() as u64,
        buffer.len() as u64,
        size,
        p.count,
        found,
    )
}

// Goes on where the log of many drops ended.
fn next_many(
    queue: &mut [u64; QUEUE_WORDS],
    store: &[u8],
    events: &mut [u64],
    buffer: &[u8],
    time: u64,
    size: u64,
    p: Passing,
) -> Result<Next, Refusal>
    requires { (event_words ≤ length events.old) × (as_look p.found ≡ look_ahead queue.old time) }
    ensures { Leads (as_next result) queue.new store.now events.new buffer.now size (past_from queue.old store.now events.old buffer.now time size p.left p.count) }
{
    let found = p.found;
    match found {
        Ok(Ahead::Expired(_, _)) => {
            let n = pass_copied(queue, store, events, buffer, time, size, p.left, p.count);
            handed_on(n)
        }
        Ok(Ahead::Nothing) => next_here(&*queue, store, buffer, size, p),
        Ok(Ahead::Chosen(_, _, _)) => next_here(&*queue, store, buffer, size, p),
        Err(_) => next_here(&*queue, store, buffer, size, p),
    }
}

// Passes over up to 111 more expired heads, with what each changes in a log.
fn pass_many(
    queue: &mut [u64; QUEUE_WORDS],
    store: &[u8],
    events: &mut [u64],
    buffer: &[u8],
    time: u64,
    size: u64,
    waiting: usize,
    k: usize,
    id: u16,
    row: usize,
) -> Result<Next, Refusal>
    requires { (event_words ≤ length events.old) × ((k ≤ 68) × (Expired id row ≡ look_ahead queue.old time)) }
    ensures { Leads (as_next result) queue.new store.now events.new buffer.now size (past_from queue.old store.now events.old buffer.now time size waiting k) }
{
    let mut header = [0u64; HEADER];
    copy_words(&mut header, &*queue, HEADER);
    let mut saved = [0u64; MANY_EVENTS];
    copy_words(&mut saved, &*events, MANY_EVENTS);
    let mut log = [0u64; MANY_LOG];
    let p = pass_some(queue, events, &mut log, MANY, time, waiting, k, id, row);
    let n = next_many(queue, store, events, buffer, time, size, p);
    let refused = n.is_err();
    if refused {
        put_back(queue, events, &log, p.drops, &header, &saved);
        return n;
    }
    n
}

// Goes on where the log before has no room: with that of many drops, or with a copy where the events before do not leave it room. Called
// from two places, as `pass_copied` is, for the sake of its frame.
fn pass_on(
    queue: &mut [u64; QUEUE_WORDS],
    store: &[u8],
    events: &mut [u64],
    buffer: &[u8],
    time: u64,
    size: u64,
    waiting: usize,
    k: usize,
    id: u16,
    row: usize,
) -> Result<Next, Refusal>
    requires { (event_words ≤ length events.old) × (Expired id row ≡ look_ahead queue.old time) }
    ensures { Leads (as_next result) queue.new store.now events.new buffer.now size (past_from queue.old store.now events.old buffer.now time size waiting k) }
{
    if k > MANY_BEFORE {
        let n = pass_copied(queue, store, events, buffer, time, size, waiting, k);
        return handed_on(n);
    }
    pass_many(
        queue, store, events, buffer, time, size, waiting, k, id, row,
    )
}

// Goes on where the log of more drops ended.
fn next_more(
    queue: &mut [u64; QUEUE_WORDS],
    store: &[u8],
    events: &mut [u64],
    buffer: &[u8],
    time: u64,
    size: u64,
    p: Passing,
) -> Result<Next, Refusal>
    requires { (event_words ≤ length events.old) × (as_look p.found ≡ look_ahead queue.old time) }
    ensures { Leads (as_next result) queue.new store.now events.new buffer.now size (past_from queue.old store.now events.old buffer.now time size p.left p.count) }
{
    let found = p.found;
    match found {
        Ok(Ahead::Expired(id, row)) => {
            let n = pass_on(
                queue, store, events, buffer, time, size, p.left, p.count, id, row,
            );
            handed_on(n)
        }
        Ok(Ahead::Nothing) => next_here(&*queue, store, buffer, size, p),
        Ok(Ahead::Chosen(_, _, _)) => next_here(&*queue, store, buffer, size, p),
        Err(_) => next_here(&*queue, store, buffer, size, p),
    }
}

// Passes over up to 16 more expired heads, with what each changes in a log.
fn pass_more(
    queue: &mut [u64; QUEUE_WORDS],
    store: &[u8],
    events: &mut [u64],
    buffer: &[u8],
    time: u64,
    size: u64,
    waiting: usize,
    k: usize,
    id: u16,
    row: usize,
) -> Result<Next, Refusal>
    requires { (event_words ≤ length events.old) × ((k ≤ 4) × (Expired id row ≡ look_ahead queue.old time)) }
    ensures { Leads (as_next result) queue.new store.now events.new buffer.now size (past_from queue.old store.now events.old buffer.now time size waiting k) }
{
    let mut header = [0u64; HEADER];
    copy_words(&mut header, &*queue, HEADER);
    let mut saved = [0u64; MORE_EVENTS];
    copy_words(&mut saved, &*events, MORE_EVENTS);
    let mut log = [0u64; MORE_LOG];
    let p = pass_some(queue, events, &mut log, MORE, time, waiting, k, id, row);
    let n = next_more(queue, store, events, buffer, time, size, p);
    let refused = n.is_err();
    if refused {
        put_back(queue, events, &log, p.drops, &header, &saved);
        return n;
    }
    n
}

// Goes on where the log of the first drop ended.
fn next_past(
    queue: &mut [u64; QUEUE_WORDS],
    store: &[u8],
    events: &mut [u64],
    buffer: &[u8],
    time: u64,
    size: u64,
    p: Passing,
) -> Result<Next, Refusal>
    requires { (event_words ≤ length events.old) × (as_look p.found ≡ look_ahead queue.old time) }
    ensures { Leads (as_next result) queue.new store.now events.new buffer.now size (past_from queue.old store.now events.old buffer.now time size p.left p.count) }
{
    let found = p.found;
    match found {
        Ok(Ahead::Expired(id, row)) => {
            if p.count > MORE_BEFORE {
                let n = pass_on(
                    queue, store, events, buffer, time, size, p.left, p.count, id, row,
                );
                return handed_on(n);
            }
            pass_more(
                queue, store, events, buffer, time, size, p.left, p.count, id, row,
            )
        }
        Ok(Ahead::Nothing) => next_here(&*queue, store, buffer, size, p),
        Ok(Ahead::Chosen(_, _, _)) => next_here(&*queue, store, buffer, size, p),
        Err(_) => next_here(&*queue, store, buffer, size, p),
    }
}

// Passes over expired heads, from the head of the stream in a row on. The first is in a log of its own, the next ones in a longer one:
// an array is cleared before its use, and most often but one head has expired.
fn pass_first(
    queue: &mut [u64; QUEUE_WORDS],
    store: &[u8],
    events: &mut [u64],
    buffer: &[u8],
    time: u64,
    size: u64,
    waiting: usize,
    id: u16,
    row: usize,
) -> Result<Next, Refusal>
    requires { (event_words ≤ length events.old) × (Expired id row ≡ look_ahead queue.old time) }
    ensures { Leads (as_next result) queue.new store.now events.new buffer.now size (past_from queue.old store.now events.old buffer.now time size waiting 0) }
{
    let mut header = [0u64; HEADER];
    copy_words(&mut header, &*queue, HEADER);
    let mut saved = [0u64; FIRST_EVENTS];
    copy_words(&mut saved, &*events, FIRST_EVENTS);
    let mut log = [0u64; ENTRY];
    let p = pass_some(queue, events, &mut log, 1, time, waiting, 0, id, row);
    let n = next_past(queue, store, events, buffer, time, size, p);
    let refused = n.is_err();
    if refused {
        put_back(queue, events, &log, p.drops, &header, &saved);
        return n;
    }
    n
}

// The same after k events of earlier calls; where there are some, with the log that they leave room for.
pub fn pass_from(
    queue: &mut [u64; QUEUE_WORDS],
    store: &[u8],
    events: &mut [u64],
    buffer: &[u8],
    time: u64,
    size: u64,
    waiting: usize,
    k: usize,
    id: u16,
    row: usize,
) -> Result<Next, Refusal>
    requires { (event_words ≤ length events.old) × (Expired id row ≡ look_ahead queue.old time) }
    ensures { Leads (as_next result) queue.new store.now events.new buffer.now size (past_from queue.old store.now events.old buffer.now time size waiting k) }
{
    if k > MORE_BEFORE {
        let n = pass_on(
            queue, store, events, buffer, time, size, waiting, k, id, row,
        );
        return handed_on(n);
    }
    if k > 0 {
        let n = pass_more(
            queue, store, events, buffer, time, size, waiting, k, id, row,
        );
        return handed_on(n);
    }
    pass_first(queue, store, events, buffer, time, size, waiting, id, row)
}

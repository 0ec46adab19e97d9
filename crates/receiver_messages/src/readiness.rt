// Whole messages: those that wait for their turn, and those that are ready.
ghost use Rattle.std.specs.Prelude.{◌≡◌, ◌<◌};
ghost use Rattle.receiver_messages.specs.Readiness.{turned, take_message, promote, queue_up, leave_ready};

use crate::keys::{next_turn, number_key};
use receiver_words::RECEIVER_WORDS;
use receiver_words::cells::{NEXT_MESSAGE, READY_FIRST, READY_LAST, load_link, store_header};
use receiver_words::chains::append_message;
use receiver_words::fragments::Fragment;
use receiver_words::index::{bucket_of, find_row, index_last, unindex_row};

// The index of the messages that wait.
const BY_NUMBER: usize = 2;

// The message whose first row is i, found under a key, waits no more and is the last that is ready.
fn take_message(receiver: &mut [u64; RECEIVER_WORDS], key: Fragment, i: usize)
    requires { i < 4096 }
    ensures { receiver.new ≡ take_message receiver.old key i }
{
    let b = bucket_of(BY_NUMBER, key);
    unindex_row(receiver, BY_NUMBER, b, i);
    append_message(receiver, READY_FIRST, i);
}

// "the number after it is then next, so one chunk may make several ready in turn": those of a stream from `next` on. Answers the number that is next then.
fn promote(receiver: &mut [u64; RECEIVER_WORDS], interleaved: bool, stream: u16, next: u32) -> u32
    ensures { turned receiver.new result ≡ promote 4096 receiver.old interleaved stream next }
{
    let mut number = next;
    for _ in 0..4096usize {
        let key = number_key(interleaved, stream, number);
        let i = find_row(&*receiver, BY_NUMBER, key);
        if i >= 4096 {
            return number;
        }
        take_message(receiver, key, i);
        number = next_turn(interleaved, number);
    }
    number
}

// A message is whole: f is the fragment of its first row i, `next` the number that is next in its stream. "Unordered ones are ready when complete,
// ordered ones when also next in
// their stream". Answers the number that is next then.
pub fn queue_up(
    receiver: &mut [u64; RECEIVER_WORDS],
    interleaved: bool,
    f: Fragment,
    i: usize,
    next: u32,
) -> u32
    requires { i < 4096 }
    ensures { turned receiver.new result ≡ queue_up receiver.old interleaved f i next }
{
    if f.unordered {
        append_message(receiver, READY_FIRST, i);
        return next;
    }
    let b = bucket_of(BY_NUMBER, f);
    index_last(receiver, BY_NUMBER, b, i);
    promote(receiver, interleaved, f.stream.0, next)
}

// The message that is ready first, whose first row is i, is ready no more.
pub fn leave_ready(receiver: &mut [u64; RECEIVER_WORDS], i: usize)
    requires { i < 4096 }
    ensures { receiver.new ≡ leave_ready receiver.old i }
{
    let next = load_link(&*receiver, i, NEXT_MESSAGE);
    store_header(receiver, READY_FIRST, next);
    if next >= 4096 {
        store_header(receiver, READY_LAST, next);
        return;
    }
}

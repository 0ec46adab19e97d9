// Restoring, second: the messages from their records.
ghost use Rattle.std.specs.Prelude.{◌≡◌, ◌+◌, ◌≤◌, ◌<◌, length};
ghost use Rattle.queue_model.specs.Reader.{has_flag};
ghost use Rattle.queue_messages.specs.Add.{linked_last};
ghost use Rattle.restoring.specs.Messages.{restored_numbers, restored_expiry, restored_item_words, unsent_of, counted_restored, restored, hung_at, hung, homed, as_home, InTable, home_of, hung_with, record_restored, message_restored, messages_restored};

use handover_records::records::HandoverStreamMessage;
use image_reader::read_message;
use message_chains::amounts::plus;
use payload_store::put_payload;
use queue_messages::adding::link_last;
use queue_streams::{Place, insert_stream, look_up, new_stream};
use queue_words::QUEUE_WORDS;
use queue_words::header::{load_options, load_totals, store_totals};
use queue_words::items::{Item, MessageNumbers, load_next, store_item};
use queue_words::limits::{LAST_MESSAGE, NO_MESSAGE};
use queue_words::streams::{OutgoingStream, load_stream, store_chain};
use types::{Fsn, Mid, OutgoingMessageId, Ssn};

// "a sum of 1 unordered, 2 MID given, 4 lifetime".
fn has_flag(n: u8, flags: u8) -> bool
    requires { 1 ≤ n }
    ensures { result ≡ has_flag n flags }
{
    flags / n % 2 == 1
}

fn restored_numbers(given: bool, mid: u32, ssn: u16) -> Option<MessageNumbers>
    ensures { result ≡ restored_numbers given mid ssn }
{
    if given {
        return Some(MessageNumbers {
            mid: Mid(mid),
            ssn: Ssn(ssn),
        });
    }
    None
}

fn restored_expiry(expires: bool, time: u64, ms_left: u32) -> Option<u64>
    requires { time ≤ 4611686018427387903 }
    ensures { result ≡ restored_expiry expires time ms_left }
{
    if expires {
        return Some(time + ms_left as u64 * 1000000);
    }
    None
}

// The message as it waits, its payload not yet stored.
fn restored_item(time: u64, r: HandoverStreamMessage) -> Item
    requires { time ≤ 4611686018427387903 }
    ensures { result ≡ restored_item_words time r }
{
    let unordered = has_flag(1, r.flags);
    let mid_given = has_flag(2, r.flags);
    let numbers = restored_numbers(mid_given, r.mid, r.ssn);
    let expires = has_flag(4, r.flags);
    let expires_at = restored_expiry(expires, time, r.ms_left);
    Item {
        max_retransmissions: r.max_retransmissions,
        unordered: unordered,
        message_id: OutgoingMessageId(r.message_id),
        ppid: r.ppid,
        numbers: numbers,
        fsn: Fsn(r.fsn),
        expires_at: expires_at,
        lifecycle_id: r.lifecycle_id,
        place: 0,
        length: 0,
        offset: r.offset as u64,
        next: NO_MESSAGE,
    }
}

// The bytes of a message that are not sent.
fn unsent(r: HandoverStreamMessage) -> u64
    ensures { result ≡ unsent_of r }
{
    if r.offset > r.length {
        return 0;
    }
    (r.length - r.offset) as u64
}

// One message more in the totals; the first free place is taken.
fn count_restored(queue: &mut [u64; QUEUE_WORDS], free: u64, n: u64)
    ensures { queue.new ≡ counted_restored queue.old free n }
{
    let mut t = load_totals(&*queue);
    t.free = free;
    t.waiting = plus(t.waiting, 1);
    t.total = plus(t.total, n);
    store_totals(queue, t);
}

// Hangs a message's place to the end of a stream's chain. A last place outside its table, which cannot be, is passed over.
fn link(queue: &mut [u64; QUEUE_WORDS], row: usize, s: OutgoingStream, place: u64, n: u64)
    requires { row < 256 }
    ensures { queue.new ≡ linked_last queue.old row s place n }
{
    if s.last < NO_MESSAGE {
        link_last(queue, row, s, place, n);
        return;
    }
    if s.first > LAST_MESSAGE {
        link_last(queue, row, s, place, n);
        return;
    }
    let amount = plus(s.buffered_amount, n);
    store_chain(queue, row, amount, s.first, place);
}

// The message in a place, at the end of its stream's chain, with its payload.
fn hang_at(
    queue: &mut [u64; QUEUE_WORDS],
    store: &mut [u8],
    row: usize,
    s: OutgoingStream,
    place: usize,
    free: u64,
    m: Item,
    payload: &[u8],
    n: u64,
    at: usize,
) -> usize
    requires { (row < 256) × (place < 1024) }
    ensures { restored queue.new store.new result ≡ hung_at queue.old store.old row s place free m payload.now n at }
{
    store_item(queue, place, m);
    // An accepted image's payloads have room in the store.
    let _ = put_payload(queue, store, place, payload);
    link(queue, row, s, place as u64, n);
    count_restored(queue, free, n);
    at
}

// The message in the first free place.
fn hang(
    queue: &mut [u64; QUEUE_WORDS],
    store: &mut [u8],
    row: usize,
    s: OutgoingStream,
    m: Item,
    payload: &[u8],
    n: u64,
    at: usize,
) -> usize
    requires { row < 256 }
    ensures { restored queue.new store.new result ≡ hung queue.old store.old row s m payload.now n at }
{
    let t = load_totals(&*queue);
    if t.free > LAST_MESSAGE {
        return at;
    }
    let place = t.free as usize;
    let free = load_next(&*queue, place);
    hang_at(queue, store, row, s, place, free, m, payload, n, at)
}

// The row of a message's stream, and the stream before the message.
#[derive(Clone, Copy)]
pub struct Home {
    pub row: usize,
    pub stream: OutgoingStream,
}

// The home of a message of this stream, which becomes known if it is not; none where it cannot.
fn home_of(queue: &mut [u64; QUEUE_WORDS], id: u16) -> Option<Home>
    ensures { (homed (as_home result queue.new) queue.new ≡ home_of queue.old id) × (InTable result) }
{
    let place = look_up(&*queue, id).ok()?;
    let home = match place {
        Place::Row(row) => Home {
            row: row,
            stream: load_stream(&*queue, row),
        },
        Place::New(position) => {
            let o = load_options(&*queue);
            let s = new_stream(o);
            let t = load_totals(&*queue);
            insert_stream(queue, position, id, s);
            Home {
                row: t.known as usize,
                stream: s,
            }
        }
    };
    Some(home)
}

// A message of a known stream, or of one that it makes known. `hang` has this one caller, so it is compiled into it.
fn hang_in(
    queue: &mut [u64; QUEUE_WORDS],
    store: &mut [u8],
    id: u16,
    m: Item,
    payload: &[u8],
    n: u64,
    at: usize,
) -> usize
    ensures { restored queue.new store.new result ≡ hung_with queue.old store.old id m payload.now n at }
{
    let home = home_of(queue, id);
    match home {
        Some(h) => {
            let s = h.stream;
            hang(queue, store, h.row, s, m, payload, n, at)
        }
        None => at,
    }
}

// The message of the record r at `at`.
fn restore_record(
    queue: &mut [u64; QUEUE_WORDS],
    store: &mut [u8],
    image: &[u8],
    time: u64,
    at: usize,
    r: HandoverStreamMessage,
) -> usize
    requires { (time ≤ 4611686018427387903) × (at + 44 ≤ length image.now) }
    ensures { restored queue.new store.new result ≡ record_restored (restored queue.old store.old at) image.now time r }
{
    let n = r.length as usize;
    if n > image.len() - 44 - at {
        return at;
    }
    let m = restored_item(time, r);
    let left = unsent(r);
    let from = at + 44;
    let to = from + n;
    hang_in(queue, store, r.id, m, &image[from..to], left, to)
}

// The message of the record at `at`; the place of the next one.
fn restore_message(
    queue: &mut [u64; QUEUE_WORDS],
    store: &mut [u8],
    image: &[u8],
    time: u64,
    at: usize,
) -> usize
    requires { time ≤ 4611686018427387903 }
    ensures { restored queue.new store.new result ≡ message_restored (restored queue.old store.old at) image.now time }
{
    if image.len() < 44 {
        return at;
    }
    if at > image.len() - 44 {
        return at;
    }
    let r = read_message(image, at);
    restore_record(queue, store, image, time, at, r)
}

// The messages of the first n records from `start` on.
pub fn restore_messages(
    queue: &mut [u64; QUEUE_WORDS],
    store: &mut [u8],
    image: &[u8],
    time: u64,
    start: usize,
    n: usize,
) -> usize
    requires { time ≤ 4611686018427387903 }
    ensures { restored queue.new store.new result ≡ messages_restored queue.old store.old start image.now time n }
{
    let mut at = start;
    for i in 0..n {
        at = restore_message(queue, store, image, time, at);
    }
    at
}

// Writing the message records, with their payloads.
ghost use Rattle.std.specs.Prelude.{◌≡◌, ℕ, ◌+◌, ◌≤◌, ◌<◌, length, take, drop};
ghost use Rattle.queue_words.specs.Flags.{pick};
ghost use Rattle.queue_words.specs.Items.{item_at};
ghost use Rattle.queue_words.specs.Known.{id_at};
ghost use Rattle.queue_state.specs.Chains.{chain};
ghost use Rattle.queue_state.specs.Model.{next_of};
ghost use Rattle.big_endian.specs.Numbers.{wrote};
ghost use Rattle.saving.specs.Records.{left_at, ms_left, message_record_words};
ghost use Rattle.saving.specs.Sound.{ItemOk, AllOk, places_at, StreamOk};
ghost use Rattle.saving.specs.Bytes.{item_bytes, chain_bytes, messages_from};

use handover_records::records::{HandoverStreamMessage, put_message};
use queue_words::QUEUE_WORDS;
use queue_words::items::{Item, load_item, mid_in, ssn_in};
use queue_words::known::load_known;
use queue_words::limits::{CHAIN_STEPS, LAST_MESSAGE};
use queue_words::streams::load_stream;

// The n bytes of the store from `from` on, into the buffer from `at` on.
fn put_part(buffer: &mut [u8], at: usize, store: &[u8], from: usize, n: usize)
    requires { (at + n ≤ length buffer.old) × (from + n ≤ length store.now) }
    ensures { buffer.new ≡ wrote buffer.old at (take n (drop from store.now)) }
{
    let stop = at + n;
    let end = from + n;
    buffer[at..stop].copy_from_slice(&store[from..end]);
}

// n where the flag is set.
fn given(b: bool, n: u32) -> u32
    ensures { (result ≡ pick b n 0) × (result ≤ n) }
{
    if b {
        return n;
    }
    0
}

// "rounded down, 0 if past, at most 2,147,483,647"
fn left_at(time: u64, at: u64) -> u32
    ensures { result ≡ left_at time at }
{
    if at <= time {
        return 0;
    }
    let left = (at - time) / 1000000;
    if left > 2147483647 {
        return 2147483647;
    }
    left as u32
}

fn ms_left(m: Item, time: u64) -> u32
    ensures { result ≡ ms_left m time }
{
    let e = m.expires_at;
    match e {
        None => 0,
        Some(t) => left_at(time, t),
    }
}

fn message_record(m: Item, id: u16, time: u64) -> HandoverStreamMessage
    requires { (m.length ≤ 262144) × (m.offset < m.length) }
    ensures { result ≡ message_record_words m id time }
{
    let unordered = given(m.unordered, 1);
    let numbers = m.numbers;
    let has_numbers = numbers.is_some();
    let mid_given = given(has_numbers, 2);
    let mid = mid_in(numbers);
    let ssn = ssn_in(numbers);
    let e = m.expires_at;
    let expires = e.is_some();
    let lifetime = given(expires, 4);
    let flags = unordered + mid_given + lifetime;
    HandoverStreamMessage {
        id: id,
        flags: flags as u8,
        zero: 0,
        ppid: m.ppid,
        ms_left: ms_left(m, time),
        max_retransmissions: m.max_retransmissions,
        ssn: ssn.0,
        mid: mid.0,
        fsn: m.fsn.0,
        lifecycle_id: m.lifecycle_id,
        message_id: m.message_id.0,
        offset: m.offset as u32,
        length: m.length as u32,
    }
}

// The record of the message in place x, with its payload.
fn put_item(
    queue: &[u64; QUEUE_WORDS],
    store: &[u8],
    buffer: &mut [u8],
    at: usize,
    id: u16,
    time: u64,
    x: usize,
)
    requires { (x < 1024) × (ItemOk (item_at queue.now x) (length store.now)) × (at + (44 + (item_at queue.now x).length) ≤ length buffer.old) }
    ensures { buffer.new ≡ wrote buffer.old at (item_bytes queue.now store.now time id x) }
{
    let m = load_item(queue, x);
    let r = message_record(m, id, time);
    put_message(buffer, at, r);
    put_part(buffer, at + 44, store, m.place as usize, m.length as usize);
}

// The records of the messages from a place on, along its chain. Answers where they end.
fn put_chain(
    queue: &[u64; QUEUE_WORDS],
    store: &[u8],
    buffer: &mut [u8],
    at: usize,
    id: u16,
    time: u64,
    first: u64,
) -> usize
    requires { (AllOk queue.now (length store.now) (chain (next_of queue.now) first 1025)) × (at + length (chain_bytes queue.now store.now time id (chain (next_of queue.now) first 1025)) ≤ length buffer.old) }
    ensures { (buffer.new ≡ wrote buffer.old at (chain_bytes queue.now store.now time id (chain (next_of queue.now) first 1025))) × (result ≡ at + length (chain_bytes queue.now store.now time id (chain (next_of queue.now) first 1025))) }
{
    let mut place = first;
    let mut pos = at;
    for i in 0..CHAIN_STEPS {
        if place > LAST_MESSAGE {
            return pos;
        }
        let m = load_item(queue, place as usize);
        put_item(queue, store, buffer, pos, id, time, place as usize);
        pos = pos + (44 + m.length as usize);
        place = m.next;
    }
    pos
}

// The records of the messages of the known stream in position i.
fn put_queue(
    queue: &[u64; QUEUE_WORDS],
    store: &[u8],
    buffer: &mut [u8],
    at: usize,
    time: u64,
    i: usize,
) -> usize
    requires { (i < 256) × (StreamOk queue.now (length store.now) i) × (at + length (chain_bytes queue.now store.now time (id_at queue.now i) (places_at queue.now i)) ≤ length buffer.old) }
    ensures { (buffer.new ≡ wrote buffer.old at (chain_bytes queue.now store.now time (id_at queue.now i) (places_at queue.now i))) × (result ≡ at + length (chain_bytes queue.now store.now time (id_at queue.now i) (places_at queue.now i))) }
{
    let k = load_known(queue, i);
    let s = load_stream(queue, k.place as usize);
    put_chain(queue, store, buffer, at, k.id.0, time, s.first)
}

// The records of the messages of the first `known` streams. Answers where they end.
pub fn put_messages(
    queue: &[u64; QUEUE_WORDS],
    store: &[u8],
    buffer: &mut [u8],
    at: usize,
    time: u64,
    known: usize,
) -> usize
    requires { (known ≤ 256) × ((i : ℕ) → i < known → StreamOk queue.now (length store.now) i) × (at + length (messages_from queue.now store.now time 0 known) ≤ length buffer.old) }
    ensures { (buffer.new ≡ wrote buffer.old at (messages_from queue.now store.now time 0 known)) × (result ≡ at + length (messages_from queue.now store.now time 0 known)) }
{
    let mut pos = at;
    for i in 0..known {
        pos = put_queue(queue, store, buffer, pos, time, i);
    }
    pos
}

// The messages: 1,024 rows of 16 words from word 3104 on, 15 of them used.
ghost use Rattle.std.specs.Prelude.{◌≡◌, ◌+◌, ◌*◌, ◌<◌, slice_index, slice_set};
ghost use Rattle.queue_words.specs.Items.{expiry_of, numbers_of, mid_in, ssn_in};
ghost use Rattle.queue_words.specs.Items.{item_out, item_row_in, item_at, put_item};
ghost use Rattle.queue_words.specs.Items.{put_next, put_place, put_length};

use crate::QUEUE_WORDS;
use types::{Fsn, Mid, OutgoingMessageId, Ssn};

const BASE: usize = 3104;

fn expiry_of(flag: u64, at: u64) -> Option<u64>
    ensures { result ≡ expiry_of flag at }
{
    (flag == 1).then_some(at)
}

// A message's MID and SSN, which it gets together.
#[derive(Clone, Copy, Debug, PartialEq, Eq)]
pub struct MessageNumbers {
    pub mid: Mid,
    pub ssn: Ssn,
}

fn numbers_of(flag: u64, mid: u64, ssn: u64) -> Option<MessageNumbers>
    ensures { result ≡ numbers_of flag mid ssn }
{
    let numbers = MessageNumbers {
        mid: Mid((mid % 4294967296) as u32),
        ssn: Ssn((ssn % 65536) as u16),
    };
    (flag == 1).then_some(numbers)
}

#[derive(Clone, Copy, Debug, PartialEq, Eq)]
pub struct Item {
    pub max_retransmissions: u16,
    pub unordered: bool,
    pub message_id: OutgoingMessageId,
    pub ppid: u32,
    pub numbers: Option<MessageNumbers>,
    pub fsn: Fsn,
    // When it expires, if it does.
    pub expires_at: Option<u64>,
    pub lifecycle_id: u64,
    // The payload's place in the store, its length, 0 for a free row, and the bytes handed out.
    pub place: u64,
    pub length: u64,
    pub offset: u64,
    // The place of the next message of its chain, 1024 for none.
    pub next: u64,
}

// 0 where they are missing; so is the SSN.
pub fn mid_in(numbers: Option<MessageNumbers>) -> Mid
    ensures { result ≡ mid_in numbers }
{
    match numbers {
        None => Mid(0),
        Some(n) => n.mid,
    }
}

pub fn ssn_in(numbers: Option<MessageNumbers>) -> Ssn
    ensures { result ≡ ssn_in numbers }
{
    match numbers {
        None => Ssn(0),
        Some(n) => n.ssn,
    }
}

fn item_out(queue: &[u64; QUEUE_WORDS], i: usize) -> Item
    requires { i < 1024 }
    ensures { result ≡ item_out queue.now i }
{
    let at = BASE + i * 16;
    let expires_at = expiry_of(queue[at + 4], queue[at + 9]);
    let numbers = numbers_of(queue[at + 3], queue[at + 7], queue[at + 0]);
    Item {
        max_retransmissions: (queue[at + 1] % 65536) as u16,
        unordered: queue[at + 2] == 1,
        message_id: OutgoingMessageId((queue[at + 5] % 4294967296) as u32),
        ppid: (queue[at + 6] % 4294967296) as u32,
        numbers,
        fsn: Fsn((queue[at + 8] % 4294967296) as u32),
        expires_at,
        lifecycle_id: queue[at + 10],
        place: queue[at + 11],
        length: queue[at + 12],
        offset: queue[at + 13],
        next: queue[at + 14],
    }
}

fn item_in(queue: &mut [u64; QUEUE_WORDS], i: usize, m: Item)
    requires { i < 1024 }
    ensures { queue.new ≡ item_row_in queue.old i m }
{
    // The cast of the innermost field stands first: after the stores the check does not find its bound.
    let fsn = m.fsn.0 as u64;
    let numbers = m.numbers;
    let given = numbers.is_some();
    let mid = mid_in(numbers);
    let ssn = ssn_in(numbers);
    let e = m.expires_at;
    let expires = e.is_some();
    let time = e.unwrap_or(0);
    let at = BASE + i * 16;
    queue[at + 0] = ssn.0 as u64;
    queue[at + 1] = m.max_retransmissions as u64;
    queue[at + 2] = m.unordered as u64;
    queue[at + 3] = given as u64;
    queue[at + 4] = expires as u64;
    queue[at + 5] = m.message_id.0 as u64;
    queue[at + 6] = m.ppid as u64;
    queue[at + 7] = mid.0 as u64;
    queue[at + 8] = fsn;
    queue[at + 9] = time;
    queue[at + 10] = m.lifecycle_id;
    queue[at + 11] = m.place;
    queue[at + 12] = m.length;
    queue[at + 13] = m.offset;
    queue[at + 14] = m.next;
}

pub fn load_item(queue: &[u64; QUEUE_WORDS], i: usize) -> Item
    requires { i < 1024 }
    ensures { result ≡ item_at queue.now i }
{
    item_out(queue, i)
}

pub fn store_item(queue: &mut [u64; QUEUE_WORDS], i: usize, m: Item)
    requires { i < 1024 }
    ensures { queue.new ≡ put_item queue.old i m }
{
    item_in(queue, i, m)
}

// One word of a row: the payload's place, its length, the next place.
const PLACE: usize = 11;

const LENGTH: usize = 12;

const NEXT: usize = 14;

fn load_word(queue: &[u64; QUEUE_WORDS], i: usize, k: usize) -> u64
    requires { (i < 1024) × (k < 16) }
    ensures { result ≡ slice_index queue.now (3104 + i * 16 + k) }
{
    queue[BASE + i * 16 + k]
}

fn store_word(queue: &mut [u64; QUEUE_WORDS], i: usize, k: usize, v: u64)
    requires { (i < 1024) × (k < 16) }
    ensures { queue.new ≡ slice_set queue.old (3104 + i * 16 + k) v }
{
    queue[BASE + i * 16 + k] = v;
}

pub fn load_next(queue: &[u64; QUEUE_WORDS], i: usize) -> u64
    requires { i < 1024 }
    ensures { result ≡ (item_at queue.now i).next }
{
    load_word(queue, i, NEXT)
}

pub fn store_next(queue: &mut [u64; QUEUE_WORDS], i: usize, v: u64)
    requires { i < 1024 }
    ensures { queue.new ≡ put_next queue.old i v }
{
    store_word(queue, i, NEXT, v)
}

pub fn load_place(queue: &[u64; QUEUE_WORDS], i: usize) -> u64
    requires { i < 1024 }
    ensures { result ≡ (item_at queue.now i).place }
{
    load_word(queue, i, PLACE)
}

pub fn store_place(queue: &mut [u64; QUEUE_WORDS], i: usize, v: u64)
    requires { i < 1024 }
    ensures { queue.new ≡ put_place queue.old i v }
{
    store_word(queue, i, PLACE, v)
}

pub fn load_length(queue: &[u64; QUEUE_WORDS], i: usize) -> u64
    requires { i < 1024 }
    ensures { result ≡ (item_at queue.now i).length }
{
    load_word(queue, i, LENGTH)
}

pub fn store_length(queue: &mut [u64; QUEUE_WORDS], i: usize, v: u64)
    requires { i < 1024 }
    ensures { queue.new ≡ put_length queue.old i v }
{
    store_word(queue, i, LENGTH, v)
}

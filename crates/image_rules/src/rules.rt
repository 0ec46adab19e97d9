// The rules of a changeover image (13).
ghost use Rattle.std.specs.Prelude.{◌≡◌, true, ◌+◌, ◌*◌, ◌≤◌, length};
ghost use Rattle.image_rules.specs.Trailers.{trailer_right_words};
ghost use Rattle.image_rules.specs.Streams.{is_plain, streams_right_words};
ghost use Rattle.image_rules.specs.Messages.{numbers_right, lifetime_right, mid_right, order_right, message_right_words, mid_early, message_kept, messages_kept};

use handover_records::records::{HandoverOutgoingStream, HandoverStreamMessage, Trailer};
use image_reader::{read_message, read_stream};
use queue_words::limits::MAX_PAYLOAD;

// "Payload length is 1 to 262,144", as the record has it.
const MAX_LENGTH: u32 = MAX_PAYLOAD as u32;

// "form 2 (= 1)"; "All must agree and fill the image."
pub fn trailer_right(t: Trailer, size: usize) -> bool
    ensures { result ≡ trailer_right_words t size }
{
    if t.form == 1 {
        if t.streams_size as u64 + t.messages_size as u64 + 20 == size as u64 {
            if t.streams_size as u64 == 14 * (t.streams as u64) {
                return true;
            }
            return false;
        }
        return false;
    }
    false
}

// "a stream with zero counters and the trailer's default priority has none" (no record).
fn is_plain(s: HandoverOutgoingStream, d: u16) -> bool
    ensures { result ≡ is_plain s d }
{
    if s.next_ssn == 0 {
        if s.next_unordered_mid == 0 {
            if s.next_ordered_mid == 0 {
                return s.priority == d;
            }
            return false;
        }
        return false;
    }
    false
}

// "ids rise": the first n records.
pub fn streams_right(image: &[u8], d: u16, n: usize) -> bool
    requires { 14 * n ≤ length image.now }
    ensures { result ≡ streams_right_words image.now d 0 0 n }
{
    let mut least: u64 = 0;
    for i in 0..n {
        let s = read_stream(image, 14 * i);
        let plain = is_plain(s, d);
        if plain {
            return false;
        }
        if (s.id as u64) < least {
            return false;
        }
        least = s.id as u64 + 1;
    }
    true
}

// "no other bit", "zero 1", "at most 2,147,483,647", "Payload length is 1 to 262,144 and offset below it."
fn numbers_right(m: HandoverStreamMessage) -> bool
    ensures { result ≡ numbers_right m }
{
    if m.flags > 7 {
        return false;
    }
    if m.zero == 0 {
        if m.ms_left > 2147483647 {
            return false;
        }
        if m.length < 1 {
            return false;
        }
        if m.length > MAX_LENGTH {
            return false;
        }
        return m.offset < m.length;
    }
    false
}

// "Fields not given are 0."
fn lifetime_right(m: HandoverStreamMessage) -> bool
    ensures { result ≡ lifetime_right m }
{
    if m.flags / 4 % 2 == 1 {
        return true;
    }
    m.ms_left == 0
}

// "Without MID, the SSN, offset and FSN are 0." "Only a stream's first message has a MID".
fn mid_right(m: HandoverStreamMessage, head: bool) -> bool
    ensures { result ≡ mid_right m head }
{
    if m.flags / 2 % 2 == 1 {
        return head;
    }
    if m.mid == 0 {
        if m.ssn == 0 {
            if m.offset == 0 {
                return m.fsn == 0;
            }
            return false;
        }
        return false;
    }
    false
}

// "an unordered one has SSN 0".
fn order_right(m: HandoverStreamMessage) -> bool
    ensures { result ≡ order_right m }
{
    if m.flags % 2 == 1 {
        return m.ssn == 0;
    }
    true
}

// The rules of one message record; `head` says that it is its stream's first.
fn message_right(m: HandoverStreamMessage, head: bool) -> bool
    ensures { result ≡ message_right_words m head }
{
    let numbers = numbers_right(m);
    if numbers {
        let lifetime = lifetime_right(m);
        if lifetime {
            let mid = mid_right(m, head);
            if mid {
                return order_right(m);
            }
            return false;
        }
        return false;
    }
    false
}

// "Strict restoring answers 13 also to a MID on a message at offset 0."
fn mid_early(m: HandoverStreamMessage, strict: bool) -> bool
    ensures { result ≡ mid_early strict m }
{
    if strict {
        if m.flags / 2 % 2 == 1 {
            return m.offset == 0;
        }
        return false;
    }
    false
}

// The rules of one message record for a queue that is strict or not.
fn message_kept(m: HandoverStreamMessage, head: bool, strict: bool) -> bool
    ensures { result ≡ message_kept strict m head }
{
    let early = mid_early(m, strict);
    if early {
        return false;
    }
    message_right(m, head)
}

// "by rising stream, in queue order": n records from `start` on fill `size` bytes, and for a strict queue no MID comes early.
pub fn messages_right(image: &[u8], start: usize, size: usize, n: usize, strict: bool) -> bool
    requires { start + size ≤ length image.now }
    ensures { result ≡ messages_kept strict image.now start size 0 n }
{
    let mut at: usize = start;
    let mut left: usize = size;
    let mut least: u64 = 0;
    for i in 0..n {
        if left < 44 {
            return false;
        }
        let m = read_message(image, at);
        let length = m.length as usize;
        if left - 44 < length {
            return false;
        }
        let id = m.id as u64;
        if id + 1 < least {
            return false;
        }
        let right = message_kept(m, least <= id, strict);
        if right {
            at = at + 44 + length;
            left = left - 44 - length;
            least = id + 1;
        } else {
            return false;
        }
    }
    left == 0
}

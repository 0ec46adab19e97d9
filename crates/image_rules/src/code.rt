// What an image's messages need, and the answer to the image.
ghost use Rattle.std.specs.Prelude.{◌≡◌, true, false, ◌+◌, ◌*◌, ◌≤◌, length};
ghost use Rattle.types.specs.Refusal.{check_number};
ghost use Rattle.image_rules.specs.Messages.{messages_right_words};
ghost use Rattle.image_rules.specs.Amounts.{payload_bytes_words, new_streams};
ghost use Rattle.image_rules.specs.Cursor.{IdsRise, moved_on_words, named_at, one_counted};
ghost use Rattle.image_rules.specs.Code.{rules_kept, amounts_fit, image_code_words};

use crate::rules::{messages_right, streams_right, trailer_right};
use handover_records::records::Trailer;
use image_reader::{read_message, read_stream, read_trailer};
use queue_words::limits::{MESSAGES, STREAMS};
use types::Refusal;

// "passes 256 streams, 1,024 messages", as the trailer counts them.
const MAX_STREAM_RECORDS: u16 = STREAMS as u16;

const MAX_MESSAGE_RECORDS: u16 = MESSAGES as u16;

// The payload bytes of n message records from `start` on, which fill `size` bytes.
fn payload_bytes(image: &[u8], start: usize, size: usize, n: usize) -> u64
    requires { (start + size ≤ length image.now) × (n ≤ 65535) × (messages_right_words image.now start size 0 n ≡ true) }
    ensures { result ≡ payload_bytes_words image.now start n }
{
    let mut at: usize = start;
    let mut sum: u64 = 0;
    for i in 0..n {
        let m = read_message(image, at);
        sum += m.length as u64;
        at = at + 44 + m.length as usize;
    }
    sum
}

// A place among the stream records, and how many new streams a message makes.
#[derive(Clone, Copy)]
struct Counted {
    place: usize,
    more: u64,
}

// From place `from` on, the place of the first stream record whose id is not below this one.
fn move_on(image: &[u8], records: usize, from: usize, id: u16) -> usize
    requires { (14 * records ≤ length image.now) × (from ≤ records) }
    ensures { result ≡ moved_on_words image.now records from id }
{
    for k in from..records {
        let s = read_stream(image, 14 * k);
        if s.id >= id {
            return k;
        }
    }
    records
}

fn is_named(image: &[u8], records: usize, k: usize, id: u16) -> bool
    requires { 14 * records ≤ length image.now }
    ensures { result ≡ named_at image.now records k id }
{
    if k < records {
        let s = read_stream(image, 14 * k);
        return s.id == id;
    }
    false
}

// One for the first message of a stream that no record names.
fn count_one(image: &[u8], records: usize, k: usize, least: u64, id: u16) -> Counted
    requires { (14 * records ≤ length image.now) × (k ≤ records) }
    ensures { result ≡ one_counted image.now records k least id }
{
    if (id as u64) < least {
        return Counted { place: k, more: 0 };
    }
    let place = move_on(image, records, k, id);
    let old = is_named(image, records, place, id);
    if old {
        return Counted {
            place: place,
            more: 0,
        };
    }
    Counted {
        place: place,
        more: 1,
    }
}

// "the streams that only messages name". The place among the records moves on with the messages, since the ids of both rise.
fn new_streams(image: &[u8], records: usize, start: usize, size: usize, n: usize) -> u64
    requires { (14 * records ≤ length image.now) × (IdsRise image.now records) × (start + size ≤ length image.now) × (n ≤ 65535) × (messages_right_words image.now start size 0 n ≡ true) }
    ensures { result ≡ new_streams image.now records start 0 n }
{
    let mut place: usize = 0;
    let mut at: usize = start;
    let mut least: u64 = 0;
    let mut sum: u64 = 0;
    for i in 0..n {
        let m = read_message(image, at);
        let length = m.length as usize;
        let id = m.id;
        let one = count_one(image, records, place, least, id);
        place = one.place;
        sum += one.more;
        least = id as u64 + 1;
        at = at + 44 + length;
    }
    sum
}

// Whether the image keeps all rules, for a queue that is strict or not.
fn rules_kept(image: &[u8], t: Trailer, strict: bool) -> bool
    ensures { result ≡ rules_kept strict image.now t }
{
    let agrees = trailer_right(t, image.len());
    if agrees {
        let streams = streams_right(image, t.default_priority, t.streams as usize);
        if streams {
            return messages_right(
                image,
                t.streams_size as usize,
                t.messages_size as usize,
                t.messages as usize,
                strict,
            );
        }
        return false;
    }
    false
}

// Whether the queue has room for the image, which keeps document 01's rules.
fn amounts_fit(image: &[u8], t: Trailer, store_length: u64) -> bool
    requires { rules_kept false image.now t ≡ true }
    ensures { result ≡ amounts_fit image.now t store_length }
{
    if t.streams > MAX_STREAM_RECORDS {
        return false;
    }
    if t.messages > MAX_MESSAGE_RECORDS {
        return false;
    }
    let bytes = payload_bytes(
        image,
        t.streams_size as usize,
        t.messages_size as usize,
        t.messages as usize,
    );
    if bytes > store_length {
        return false;
    }
    let more = new_streams(
        image,
        t.streams as usize,
        t.streams_size as usize,
        t.messages_size as usize,
        t.messages as usize,
    );
    if t.streams as u64 + more > STREAMS {
        return false;
    }
    true
}

// Whether the image is accepted; the first of the refusals 13, 14 and 15 else.
pub fn image_code(
    image: &[u8],
    strict: bool,
    default_priority: u16,
    store_length: u64,
) -> Result<(), Refusal>
    ensures { check_number result ≡ image_code_words strict image.now default_priority store_length }
{
    let size = image.len();
    if size < 20 {
        return Err(Refusal::ImageWrong);
    }
    let t = read_trailer(image, size - 20);
    let kept = rules_kept(image, t, strict);
    if !kept {
        return Err(Refusal::ImageWrong);
    }
    if t.default_priority != default_priority {
        return Err(Refusal::PriorityOther);
    }
    let fit = amounts_fit(image, t, store_length);
    if !fit {
        return Err(Refusal::ImageLarge);
    }
    Ok(())
}

// The first pass: are the words those of a queue, and how large is its image? It reads only.
ghost use Rattle.std.specs.Prelude.{◌≡◌, ◌<◌, ◌≤◌};
ghost use Rattle.saving.specs.Measure.{failed, sound_item, is_plain, tally_item, tally_chain, tally_stream, tally_from, tally_queue, tally_start, Small};

use queue_words::QUEUE_WORDS;
use queue_words::header::{load_options, load_totals};
use queue_words::items::{Item, load_item};
use queue_words::known::load_known;
use queue_words::limits::{
    CHAIN_STEPS, LAST_MESSAGE, LAST_STREAM, MAX_PAYLOAD, MESSAGES, NO_MESSAGE, STREAMS,
};
use queue_words::streams::{OutgoingStream, load_stream};

// The pass half done: whether the words are sound so far, the place of the next message of the chain, and how many stream
// records, message records and bytes of message records there are.
#[derive(Clone, Copy)]
pub struct Tally {
    pub ok: bool,
    pub place: u64,
    pub streams: u64,
    pub messages: u64,
    pub bytes: u64,
}

// What the image's size and its trailer tell of: the stream records, the message records, and the bytes of the message records.
#[derive(Clone, Copy)]
pub struct Counts {
    pub streams: u64,
    pub messages: u64,
    pub bytes: u64,
}

fn tally_failed(t: Tally) -> Tally
    ensures { result ≡ failed t }
{
    let mut o = t;
    o.ok = false;
    o.place = NO_MESSAGE;
    o
}

// Whether a message's payload lies in a store of len bytes, has a right length, and has bytes left to send.
fn sound_item(m: Item, len: u64) -> bool
    ensures { result ≡ sound_item m len }
{
    if m.length > MAX_PAYLOAD {
        return false;
    }
    if m.length > len {
        return false;
    }
    if m.place > len - m.length {
        return false;
    }
    m.offset < m.length
}

// "a stream with zero counters and the trailer's default priority has none": no record.
pub fn is_plain(s: OutgoingStream, default_priority: u16) -> bool
    ensures { result ≡ is_plain s default_priority }
{
    if s.next_ssn.0 != 0 {
        return false;
    }
    if s.next_unordered_mid.0 != 0 {
        return false;
    }
    if s.next_ordered_mid.0 != 0 {
        return false;
    }
    s.priority == default_priority
}

fn tally_item(t: Tally, m: Item, len: u64) -> Tally
    requires { Small t }
    ensures { result ≡ tally_item t m len }
{
    let sound = sound_item(m, len);
    if sound {
        if t.messages < MESSAGES {
            return Tally {
                ok: t.ok,
                place: m.next,
                streams: t.streams,
                messages: t.messages + 1,
                bytes: t.bytes + (44 + m.length),
            };
        }
        return tally_failed(t);
    }
    tally_failed(t)
}

fn tally_chain(queue: &[u64; QUEUE_WORDS], len: u64, start: Tally) -> Tally
    requires { Small start }
    ensures { result ≡ tally_chain queue.now len start 1025 }
{
    let mut t = start;
    for i in 0..CHAIN_STEPS {
        if t.place > LAST_MESSAGE {
            return t;
        }
        let m = load_item(queue, t.place as usize);
        t = tally_item(t, m, len);
    }
    t
}

fn tally_stream(queue: &[u64; QUEUE_WORDS], len: u64, i: usize, t: Tally) -> Tally
    requires { (i < 256) × (t.streams < 256) × Small t }
    ensures { result ≡ tally_stream queue.now len i t }
{
    let k = load_known(queue, i);
    if k.place > LAST_STREAM {
        return tally_failed(t);
    }
    let s = load_stream(queue, k.place as usize);
    let o = load_options(queue);
    let plain = is_plain(s, o.default_priority);
    let mut begun = t;
    begun.place = s.first;
    if plain {
        let whole = tally_chain(queue, len, begun);
        if whole.place == NO_MESSAGE {
            return whole;
        }
        return tally_failed(whole);
    }
    begun.streams = t.streams + 1;
    let whole = tally_chain(queue, len, begun);
    if whole.place == NO_MESSAGE {
        return whole;
    }
    tally_failed(whole)
}

fn tally_streams(queue: &[u64; QUEUE_WORDS], len: u64, known: usize) -> Tally
    requires { known ≤ 256 }
    ensures { result ≡ tally_from queue.now len tally_start 0 known }
{
    let mut t = Tally {
        ok: true,
        place: NO_MESSAGE,
        streams: 0,
        messages: 0,
        bytes: 0,
    };
    for i in 0..known {
        t = tally_stream(queue, len, i, t);
    }
    t
}

// The whole pass, for a store of len bytes.
pub fn tally_queue(queue: &[u64; QUEUE_WORDS], len: u64) -> Tally
    ensures { result ≡ tally_queue queue.now len }
{
    let t = load_totals(queue);
    if t.known > STREAMS {
        return Tally {
            ok: false,
            place: NO_MESSAGE,
            streams: 0,
            messages: 0,
            bytes: 0,
        };
    }
    tally_streams(queue, len, t.known as usize)
}

// Writing the stream records.
ghost use Rattle.std.specs.Prelude.{◌≡◌, ℕ, ◌+◌, ◌≤◌, ◌<◌, length};
ghost use Rattle.queue_state.specs.Model.{row_at};
ghost use Rattle.big_endian.specs.Numbers.{wrote};
ghost use Rattle.saving.specs.Bytes.{stream_bytes_words, streams_from};

use crate::measuring::is_plain;
use handover_records::records::{HandoverOutgoingStream, put_stream};
use queue_words::QUEUE_WORDS;
use queue_words::header::load_options;
use queue_words::known::load_known;
use queue_words::streams::load_stream;

// The record of the known stream in position i, if it has one. Answers where it ends.
fn put_known(queue: &[u64; QUEUE_WORDS], buffer: &mut [u8], at: usize, i: usize) -> usize
    requires { (i < 256) × (row_at queue.now i < 256) × (at + length (stream_bytes_words queue.now i) ≤ length buffer.old) }
    ensures { (buffer.new ≡ wrote buffer.old at (stream_bytes_words queue.now i)) × (result ≡ at + length (stream_bytes_words queue.now i)) }
{
    let k = load_known(queue, i);
    let s = load_stream(queue, k.place as usize);
    let o = load_options(queue);
    let plain = is_plain(s, o.default_priority);
    if plain {
        return at;
    }
    put_stream(
        buffer,
        at,
        HandoverOutgoingStream {
            id: k.id.0,
            next_ssn: s.next_ssn.0,
            next_unordered_mid: s.next_unordered_mid.0,
            next_ordered_mid: s.next_ordered_mid.0,
            priority: s.priority,
        },
    );
    at + 14
}

// The records of the first `known` streams. Answers where they end.
pub fn put_streams(queue: &[u64; QUEUE_WORDS], buffer: &mut [u8], at: usize, known: usize) -> usize
    requires { (known ≤ 256) × ((i : ℕ) → i < known → row_at queue.now i < 256) × (at + length (streams_from queue.now 0 known) ≤ length buffer.old) }
    ensures { (buffer.new ≡ wrote buffer.old at (streams_from queue.now 0 known)) × (result ≡ at + length (streams_from queue.now 0 known)) }
{
    let mut pos = at;
    for i in 0..known {
        pos = put_known(queue, buffer, pos, i);
    }
    pos
}

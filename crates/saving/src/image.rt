// Saving: the call.
ghost use Rattle.std.specs.Prelude.{◌≡◌, true, ◌+◌, ◌≤◌, ◌<◌, length};
ghost use Rattle.big_endian.specs.Numbers.{wrote};
ghost use Rattle.saving.specs.Bytes.{image_bytes_words, counts_size};
ghost use Rattle.saving.specs.Measure.{counts_of, tally_queue, Few};
ghost use Rattle.saving.specs.Save.{as_saved, saved_as, save_image};

use crate::measuring::{Counts, tally_queue};
use crate::messages::put_messages;
use crate::streams::put_streams;
use handover_records::records::{Trailer, put_trailer};
use queue_words::QUEUE_WORDS;
use queue_words::header::{load_options, load_totals};
use queue_words::limits::MAX_TIME;
use types::Refusal;

// The image's length.
pub fn image_size(n: Counts) -> u64
    requires { Few n }
    ensures { result ≡ counts_size n }
{
    n.streams * 14 + n.bytes + 20
}

// The image of sound words, whose records are counted.
pub fn put_image(queue: &[u64; QUEUE_WORDS], store: &[u8], image: &mut [u8], time: u64, n: Counts)
    requires { ((tally_queue queue.now (length store.now)).ok ≡ true) × (n ≡ counts_of (tally_queue queue.now (length store.now))) × (counts_size n ≤ length image.old) }
    ensures { image.new ≡ wrote image.old 0 (image_bytes_words queue.now store.now time (tally_queue queue.now (length store.now))) }
{
    let h = load_totals(queue);
    let o = load_options(queue);
    let known = h.known as usize;
    let behind_streams = put_streams(queue, image, 0, known);
    let behind = put_messages(queue, store, image, behind_streams, time, known);
    put_trailer(
        image,
        behind,
        Trailer {
            next_message_id: h.next_message_id.0,
            default_priority: o.default_priority,
            streams: n.streams as u16,
            messages: n.messages as u16,
            form: 1,
            messages_size: n.bytes as u32,
            streams_size: (n.streams * 14) as u32,
        },
    );
}

// Saves the queue at a time. Answers the length of the image, which stands at the start of the lent buffer. A refused call leaves the
// buffer as it was; so do the places past the image stay.
pub fn save(
    queue: &[u64; QUEUE_WORDS],
    store: &[u8],
    image: &mut [u8],
    time: u64,
) -> Result<usize, Refusal>
    ensures { saved_as (as_saved result) image.new ≡ save_image queue.now store.now image.old time }
{
    let len = store.len() as u64;
    let o = load_options(queue);
    if len != o.store_length {
        return Err(Refusal::StoreWrong);
    }
    if time > MAX_TIME {
        return Err(Refusal::TimeLate);
    }
    let t = tally_queue(queue, len);
    if !t.ok {
        return Err(Refusal::WordsBroken);
    }
    let n = Counts {
        streams: t.streams,
        messages: t.messages,
        bytes: t.bytes,
    };
    let size = image_size(n);
    if (image.len() as u64) < size {
        return Err(Refusal::ImageBufferShort);
    }
    put_image(queue, store, image, time, n);
    Ok(size as usize)
}

// Restoring an image.
ghost use Rattle.std.specs.Prelude.{◌≡◌, ◌≤◌};
ghost use Rattle.types.specs.Refusal.{check_number};
ghost use Rattle.queue_streams.specs.Answers.{as_call};
ghost use Rattle.queue_messages.specs.Add.{added, stored};
ghost use Rattle.handover.specs.Restore.{restore_code, all_waiting, restored_from, restore};

use handover_records::Trailer;
use image_reader::read_trailer;
use image_rules::image_code;
use queue_words::QUEUE_WORDS;
use queue_words::header::{load_options, load_totals};
use queue_words::limits::{MAX_TIME, STREAMS};
use restoring::{empty_queue, remember_half_sent, restore_messages, restore_streams, wait_all};
use types::Refusal;

// Whether the call is accepted; the first of the refusals 2, 4 and 12 to 15 else.
fn restore_code(
    queue: &[u64; QUEUE_WORDS],
    len: u64,
    time: u64,
    image: &[u8],
) -> Result<(), Refusal>
    ensures { check_number result ≡ restore_code queue.now len time image.now }
{
    let o = load_options(queue);
    if o.store_length != len {
        return Err(Refusal::StoreWrong);
    }
    if time > MAX_TIME {
        return Err(Refusal::TimeLate);
    }
    let t = load_totals(queue);
    if t.known > 0 {
        return Err(Refusal::QueueUsed);
    }
    if t.next_message_id.0 > 0 {
        return Err(Refusal::QueueUsed);
    }
    image_code(image, o.strict_restart, o.default_priority, len)
}

// Every stream with messages then waits; without interleaving the first with a half-sent message is remembered.
fn let_wait(queue: &mut [u64; QUEUE_WORDS])
    ensures { queue.new ≡ all_waiting queue.old }
{
    let t = load_totals(&*queue);
    if t.known > STREAMS {
        return;
    }
    wait_all(queue, t.interleaving, t.known as usize);
    if t.interleaving {
        return;
    }
    remember_half_sent(queue, t.known as usize);
}

// An accepted image with this trailer.
fn restore_from(
    queue: &mut [u64; QUEUE_WORDS],
    store: &mut [u8],
    time: u64,
    image: &[u8],
    t: Trailer,
)
    requires { time ≤ 4611686018427387903 }
    ensures { stored queue.new store.new ≡ restored_from queue.old store.old time image.now t }
{
    empty_queue(queue, t.next_message_id);
    restore_streams(queue, image, t.streams as usize);
    restore_messages(
        queue,
        store,
        image,
        time,
        t.streams_size as usize,
        t.messages as usize,
    );
    let_wait(queue);
}

// Restores an image; the store is lent.
pub fn restore(
    queue: &mut [u64; QUEUE_WORDS],
    store: &mut [u8],
    time: u64,
    image: &[u8],
) -> Result<usize, Refusal>
    ensures { added (as_call result) queue.new store.new ≡ restore queue.old store.old time image.now }
{
    restore_code(&*queue, store.len() as u64, time, image)?;
    if image.len() < 20 {
        return Err(Refusal::ImageWrong);
    }
    let t = read_trailer(image, image.len() - 20);
    restore_from(queue, store, time, image, t);
    Ok(0)
}

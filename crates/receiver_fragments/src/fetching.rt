// Fetching a message.
ghost use Rattle.std.specs.Prelude.{◌≡◌, ◌<◌};
ghost use Rattle.receiver_fragments.specs.Fetched.{Message};
ghost use Rattle.receiver_fragments.specs.Answers.{as_message, as_fetched};
ghost use Rattle.receiver_fragments.specs.Fetching.{fetched, delivery, take_out, fetch_first, fetch};

use crate::answers::Delivery;
use crate::freeing::{hand_out, measure_message};
use receiver_messages::keys::interleaved;
use receiver_messages::readiness::leave_ready;
use receiver_words::RECEIVER_WORDS;
use receiver_words::cells::{READY_FIRST, STORE_LENGTH, USED, load_header};
use receiver_words::fragments::load_fragment;
use types::{Refusal, StreamId};

// "stream, order mark, first fragment's protocol id, payload" of the message that begins with a row.
fn delivery(receiver: &[u64; RECEIVER_WORDS], row: usize, length: u64) -> Delivery
    requires { row < 4096 }
    ensures { result ≡ delivery receiver.now row length }
{
    let f = load_fragment(receiver, row);
    Delivery {
        stream: StreamId(f.stream.0),
        unordered: f.unordered,
        ppid: f.ppid,
        length: length,
    }
}

// The message that is ready first, which begins with a row, is handed out and freed.
fn take_out(
    receiver: &mut [u64; RECEIVER_WORDS],
    store: &[u8],
    buffer: &mut [u8],
    row: usize,
    length: u64,
) -> Delivery
    requires { row < 4096 }
    ensures { fetched (Message result) receiver.new buffer.new ≡ take_out receiver.old store.now buffer.old row length }
{
    let i_data = interleaved(&*receiver);
    let d = delivery(&*receiver, row, length);
    leave_ready(receiver, row);
    hand_out(receiver, store, buffer, i_data, row);
    d
}

// 16 on damaged words, "10 when its buffer is shorter", or the message.
fn fetch_first(
    receiver: &mut [u64; RECEIVER_WORDS],
    store: &[u8],
    buffer: &mut [u8],
    row: usize,
) -> Result<Delivery, Refusal>
    requires { row < 4096 }
    ensures { fetched (as_message result) receiver.new buffer.new ≡ fetch_first receiver.old store.now buffer.old row }
{
    let i_data = interleaved(&*receiver);
    let used = load_header(&*receiver, USED);
    let m = measure_message(&*receiver, i_data, row, store.len() as u64, used);
    if m.ok {
        let length = used - m.left;
        if length > buffer.len() as u64 {
            return Err(Refusal::BufferShort);
        }
        return Ok(take_out(receiver, store, buffer, row, length));
    }
    Err(Refusal::WordsBroken)
}

// "A call of its own fetches and frees the message ready first [..] or says that none is, with 10 when its buffer is shorter."
pub fn fetch(
    receiver: &mut [u64; RECEIVER_WORDS],
    store: &[u8],
    buffer: &mut [u8],
) -> Result<Option<Delivery>, Refusal>
    ensures { fetched (as_fetched result) receiver.new buffer.new ≡ fetch receiver.old store.now buffer.old }
{
    let len = load_header(&*receiver, STORE_LENGTH);
    if store.len() as u64 != len {
        return Err(Refusal::StoreWrong);
    }
    let row = load_header(&*receiver, READY_FIRST);
    if row >= 4096 {
        return Ok(None);
    }
    let d = fetch_first(receiver, store, buffer, row as usize)?;
    Ok(Some(d))
}

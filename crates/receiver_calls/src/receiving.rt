// Receiving a chunk.
ghost use Rattle.std.specs.Prelude.{◌≡◌, ◌+◌, ◌≤◌, length};
ghost use Rattle.receiver_fragments.specs.Answers.{as_received};
ghost use Rattle.receiver_fragments.specs.Receiving.{received};
ghost use Rattle.receiver_calls.specs.Receiving.{fragment_of, of_kind, receive_read, receive};

use chunks::{Chunk, ChunkKind, read_chunk};
use receiver_fragments::answers::Received;
use receiver_fragments::receiving::receive_fragment;
use receiver_messages::keys::interleaved;
use receiver_words::RECEIVER_WORDS;
use receiver_words::cells::{STORE_LENGTH, load_header};
use receiver_words::fragments::Fragment;
use types::{Fsn, Mid, Refusal, Ssn, StreamId};

// The fields read of a chunk.
fn fragment_of(chunk: Chunk) -> Fragment
    ensures { result ≡ fragment_of chunk }
{
    let sent = chunk.fragment;
    let data = sent.data;
    let key = data.stream_key;
    let id = key.id();
    let unordered = key.is_unordered();
    let ssn = data.ssn;
    let mid = data.mid;
    let fsn = data.fsn;
    Fragment {
        stream: StreamId(id.0),
        ssn: Ssn(ssn.0),
        unordered: unordered,
        first: data.is_beginning,
        last: data.is_end,
        tsn: chunk.tsn,
        mid: Mid(mid.0),
        fsn: Fsn(fsn.0),
        ppid: data.ppid,
    }
}

// "one kind fixed at creation (the other gets 19)".
fn of_kind(kind: ChunkKind, interleaved: bool) -> bool
    ensures { result ≡ of_kind kind interleaved }
{
    match kind {
        ChunkKind::Data => !interleaved,
        ChunkKind::IData => interleaved,
    }
}

fn receive_read(
    receiver: &mut [u64; RECEIVER_WORDS],
    store: &mut [u8],
    chunk: Chunk,
    bytes: &[u8],
) -> Result<Received, Refusal>
    requires { chunk.payload_at + chunk.fragment.«data».length ≤ length bytes.now }
    ensures { received (as_received result) receiver.new store.new ≡ receive_read receiver.old store.old chunk bytes.now }
{
    let i_data = interleaved(&*receiver);
    let kind = chunk.kind;
    let meant = of_kind(kind, i_data);
    if meant {
        let f = fragment_of(chunk);
        let sent = chunk.fragment;
        let data = sent.data;
        let at = chunk.payload_at;
        let end = at + data.length as usize;
        return receive_fragment(receiver, store, i_data, f, &bytes[at..end]);
    }
    Err(Refusal::ChunkWrong)
}

// A chunk's bytes as they come: "checked as 2, 19, 24, repeats, 22, 23".
pub fn receive(
    receiver: &mut [u64; RECEIVER_WORDS],
    store: &mut [u8],
    bytes: &[u8],
) -> Result<Received, Refusal>
    ensures { received (as_received result) receiver.new store.new ≡ receive receiver.old store.old bytes.now }
{
    let length = load_header(&*receiver, STORE_LENGTH);
    if store.len() as u64 != length {
        return Err(Refusal::StoreWrong);
    }
    let chunk = read_chunk(bytes)?;
    receive_read(receiver, store, chunk, bytes)
}

// What goes with a fragment (packet/data.rs, tx/send_queue.rs: DataToSend).
ghost use Rattle.std.specs.Prelude.{◌≡◌};
ghost use Rattle.queue_sending.specs.Data.{shown_lifecycle, data_to_send};

use message_chains::amounts::remaining;
use queue_words::items::{Item, mid_in, ssn_in};
use types::{Fsn, Mid, OutgoingMessageId, Ssn, StreamId, StreamKey};

#[derive(Clone, Copy, Debug, PartialEq, Eq)]
pub struct Data {
    pub stream_key: StreamKey,
    pub ssn: Ssn,
    pub mid: Mid,
    pub fsn: Fsn,
    pub ppid: u32,
    pub is_beginning: bool,
    pub is_end: bool,
    // The bytes of the fragment, which are at the lent buffer's start.
    pub length: u64,
}

#[derive(Clone, Copy, Debug, PartialEq, Eq)]
pub struct DataToSend {
    pub message_id: OutgoingMessageId,
    pub data: Data,
    pub max_retransmissions: u16,
    pub expires_at: Option<u64>,
    pub lifecycle_id: u64,
}

// The next fragment: nothing waits, or a fragment, each with so many events written.
#[derive(Clone, Copy, Debug, PartialEq, Eq)]
pub enum Produced {
    Nothing(usize),
    Fragment(usize, DataToSend),
}

// "Only the last fragment shows the lifecycle id."
fn shown_lifecycle(m: Item, is_end: bool) -> u64
    ensures { result ≡ shown_lifecycle m is_end }
{
    if is_end {
        return m.lifecycle_id;
    }
    0
}

// The fragment of n bytes of a numbered message: "First means offset 0; last means that nothing remains."
pub fn data_to_send(id: u16, m: Item, n: u64) -> DataToSend
    ensures { result ≡ data_to_send id m n }
{
    let left = remaining(m);
    let is_end = n == left;
    let stream_key = StreamKey::new(m.unordered, StreamId(id));
    let numbers = m.numbers;
    let ssn = ssn_in(numbers);
    let mid = mid_in(numbers);
    let fsn = m.fsn;
    let data = Data {
        stream_key: stream_key,
        ssn: ssn,
        mid: mid,
        fsn: fsn,
        ppid: m.ppid,
        is_beginning: m.offset == 0,
        is_end: is_end,
        length: n,
    };
    let expires_at = m.expires_at;
    let lifecycle_id = shown_lifecycle(m, is_end);
    let message_id = m.message_id;
    DataToSend {
        message_id: message_id,
        data: data,
        max_retransmissions: m.max_retransmissions,
        expires_at: expires_at,
        lifecycle_id: lifecycle_id,
    }
}

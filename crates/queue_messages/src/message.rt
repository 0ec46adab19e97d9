// A message as it is handed over, and as it waits.
ghost use Rattle.std.specs.Prelude.{◌≡◌, ◌≤◌};
ghost use Rattle.queue_messages.specs.Message.{retransmissions, nanoseconds, expiry, new_item_words};

use queue_words::items::Item;
use queue_words::limits::NO_MESSAGE;
use types::{Fsn, OutgoingMessageId, StreamId};

#[derive(Clone, Copy, Debug, PartialEq, Eq)]
pub struct Message {
    pub stream_id: StreamId,
    pub ppid: u32,
    pub unordered: bool,
    // In nanoseconds; None for a message that does not expire.
    pub lifetime: Option<u64>,
    // None for no limit.
    pub max_retransmissions: Option<u16>,
    // 0 for none.
    pub lifecycle_id: u64,
}

// "no retransmission limit given means 65,535".
fn retransmissions(m: Option<u16>) -> u16
    ensures { result ≡ retransmissions m }
{
    m.unwrap_or(65535)
}

// A lifetime's nanoseconds, 0 where there is none.
pub fn nanoseconds(l: Option<u64>) -> u64
    ensures { result ≡ nanoseconds l }
{
    l.unwrap_or(0)
}

// "a lifetime sets now + lifetime + 1 ms, else never".
fn expiry(time: u64, l: Option<u64>) -> Option<u64>
    requires { (time ≤ 4611686018427387903) × (nanoseconds l ≤ 4611686018427387903) }
    ensures { result ≡ expiry time l }
{
    match l {
        None => None,
        Some(n) => Some(time + n + 1000000),
    }
}

// The message as it waits, the last of its chain, its payload not yet stored (Rust: Item::new).
pub fn new_item(time: u64, id: OutgoingMessageId, m: Message) -> Item
    requires { (time ≤ 4611686018427387903) × (nanoseconds m.lifetime ≤ 4611686018427387903) }
    ensures { result ≡ new_item_words time id m }
{
    let lifetime = m.lifetime;
    let expires_at = expiry(time, lifetime);
    let given = m.max_retransmissions;
    let max_retransmissions = retransmissions(given);
    Item {
        max_retransmissions: max_retransmissions,
        unordered: m.unordered,
        message_id: id,
        ppid: m.ppid,
        numbers: None,
        fsn: Fsn(0),
        expires_at: expires_at,
        lifecycle_id: m.lifecycle_id,
        place: 0,
        length: 0,
        offset: 0,
        next: NO_MESSAGE,
    }
}

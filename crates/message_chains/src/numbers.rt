// A message with other numbers. It is made anew: a store to a field that is an enum is no covered form.
ghost use Rattle.std.specs.Prelude.{◌≡◌};
ghost use Rattle.message_chains.specs.Numbers.{with_numbers};

use queue_words::items::{Item, MessageNumbers};
use types::{Fsn, OutgoingMessageId};

pub fn with_numbers(m: Item, n: Option<MessageNumbers>) -> Item
    ensures { result ≡ with_numbers m n }
{
    let expires_at = m.expires_at;
    Item {
        max_retransmissions: m.max_retransmissions,
        unordered: m.unordered,
        message_id: OutgoingMessageId(m.message_id.0),
        ppid: m.ppid,
        numbers: n,
        fsn: Fsn(m.fsn.0),
        expires_at: expires_at,
        lifecycle_id: m.lifecycle_id,
        place: m.place,
        length: m.length,
        offset: m.offset,
        next: m.next,
    }
}

// A message by its numbers.
ghost use Rattle.std.specs.Prelude.{◌≡◌};
ghost use Rattle.host_numbers.specs.Numbers.{is_yes, lifetime_of, retransmissions_of, message_of_words};

use out_array::is_yes;
use queue_messages::Message;
use types::StreamId;

fn lifetime_of(given: u8, nanoseconds: u64) -> Option<u64>
    ensures { result ≡ lifetime_of (is_yes given) nanoseconds }
{
    let yes = is_yes(given);
    if yes {
        return Some(nanoseconds);
    }
    None
}

fn retransmissions_of(given: u8, limit: u16) -> Option<u16>
    ensures { result ≡ retransmissions_of (is_yes given) limit }
{
    let yes = is_yes(given);
    if yes {
        return Some(limit);
    }
    None
}

pub fn message_of(
    stream_id: u16,
    ppid: u32,
    unordered: u8,
    has_lifetime: u8,
    lifetime: u64,
    has_retransmissions: u8,
    max_retransmissions: u16,
    lifecycle_id: u64,
) -> Message
    ensures { result ≡ message_of_words stream_id ppid unordered has_lifetime lifetime has_retransmissions max_retransmissions lifecycle_id }
{
    let u = is_yes(unordered);
    let l = lifetime_of(has_lifetime, lifetime);
    let m = retransmissions_of(has_retransmissions, max_retransmissions);
    Message {
        stream_id: StreamId(stream_id),
        ppid: ppid,
        unordered: u,
        lifetime: l,
        max_retransmissions: m,
        lifecycle_id: lifecycle_id,
    }
}

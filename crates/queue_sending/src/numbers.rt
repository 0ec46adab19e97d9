// The numbers of a message: "A message gets its MID when its first fragment is made, ordered and unordered counting separately in
// each stream; only ordered ones get an SSN, others show 0."
ghost use Rattle.std.specs.Prelude.{◌≡◌};
ghost use Rattle.queue_sending.specs.Numbers.{next_numbers, numbered_item, numbered_stream, moved_on_words};

use message_chains::amounts::plus;
use message_chains::numbers::with_numbers;
use queue_words::items::{Item, MessageNumbers};
use queue_words::streams::OutgoingStream;
use types::{Mid, Ssn};

// The numbers that the stream gives next.
fn next_numbers(s: OutgoingStream, unordered: bool) -> Option<MessageNumbers>
    ensures { result ≡ next_numbers s unordered }
{
    if unordered {
        return Some(MessageNumbers {
            mid: Mid(s.next_unordered_mid.0),
            ssn: Ssn(0),
        });
    }
    Some(MessageNumbers {
        mid: Mid(s.next_ordered_mid.0),
        ssn: Ssn(s.next_ssn.0),
    })
}

// The message with its numbers.
pub fn numbered_item(s: OutgoingStream, m: Item) -> Item
    ensures { result ≡ numbered_item s m }
{
    let numbers = m.numbers;
    let given = numbers.is_some();
    if given {
        return m;
    }
    let next = next_numbers(s, m.unordered);
    with_numbers(m, next)
}

// The stream after it has given a message its numbers.
pub fn numbered_stream(s: OutgoingStream, m: Item) -> OutgoingStream
    ensures { result ≡ numbered_stream s m }
{
    let numbers = m.numbers;
    let given = numbers.is_some();
    if given {
        return s;
    }
    let mut o = s;
    if m.unordered {
        let mid = s.next_unordered_mid.add_to(1);
        o.next_unordered_mid = mid;
        return o;
    }
    let mid = s.next_ordered_mid.add_to(1);
    let ssn = s.next_ssn.add_to(1);
    o.next_ordered_mid = mid;
    o.next_ssn = ssn;
    o
}

// A message after a fragment of n bytes that is not its last: "FSN grows by one a fragment".
pub fn moved_on(m: Item, n: u64) -> Item
    ensures { result ≡ moved_on_words m n }
{
    let mut o = m;
    let fsn = m.fsn.add_to(1);
    o.fsn = fsn;
    o.offset = plus(m.offset, n);
    o
}

// A user of the queue, proved from what the public calls promise alone: two messages go in, and the bytes that come out are theirs.
#![tactic(auto)]

ghost use Rattle.std.specs.Prelude.{◌≡◌, length};
ghost use Rattle.queue_sending.specs.Answers.{as_produced};
ghost use Rattle.client.specs.Carried.{plain_message, is_fragment, Fits, Carried};

use linked_adding::{add, create};
use linked_sending::produce;
use queue_messages::Message;
use queue_sending::Produced;
use queue_words::{QUEUE_WORDS, RestartRule};
use types::{Refusal, StreamId};

// An ordered message without a lifetime or a limit of retransmissions.
fn plain_message(stream: u16) -> Message
    ensures { result ≡ plain_message stream }
{
    Message {
        stream_id: StreamId(stream),
        ppid: 0,
        unordered: false,
        lifetime: None,
        max_retransmissions: None,
        lifecycle_id: 0,
    }
}

fn is_fragment(p: Result<Produced, Refusal>) -> bool
    ensures { result ≡ is_fragment (as_produced p) }
{
    matches!(p, Ok(Produced::Fragment(_, _)))
}

// Adds two messages, on streams 1 and 2, to a new queue and takes three fragments of at most 1,200 bytes. True exactly if every call
// was accepted and gave a fragment.
pub fn carry(
    queue: &mut [u64; QUEUE_WORDS],
    store: &mut [u8],
    events: &mut [u64],
    first: &[u8],
    second: &[u8],
    one: &mut [u8],
    two: &mut [u8],
    three: &mut [u8],
) -> bool
    ensures { Fits (length store.old) (length events.old) first.now second.now one.old two.old three.old → Carried first.now second.now result one.new two.new three.new }
{
    let created = create(queue, &*store, 1200, 256, 0, 0, false, RestartRule::Dcsctp);
    let m = plain_message(1);
    let first_added = add(queue, store, 0, m, first);
    let n = plain_message(2);
    let second_added = add(queue, store, 0, n, second);
    let one_made = produce(queue, &*store, events, one, 0, 1200);
    let two_made = produce(queue, &*store, events, two, 0, 1200);
    let three_made = produce(queue, &*store, events, three, 0, 1200);
    let a = created.is_ok();
    let b = first_added.is_ok();
    let c = second_added.is_ok();
    let d = is_fragment(one_made);
    let e = is_fragment(two_made);
    let f = is_fragment(three_made);
    a & b & c & d & e & f
}

// The next fragment (Rust: produce, get_stream_to_produce_from).
ghost use Rattle.std.specs.Prelude.{◌≡◌, ◌≤◌, length};
ghost use Rattle.types.specs.Refusal as types_refusal;
ghost use Rattle.queue_sending.specs.Answers.{made_of};
ghost use Rattle.queue_sending.specs.Data.{produced_with};
ghost use Rattle.queue_sending.specs.Produce.{produced_after};
ghost use Rattle.queue_state.specs.Good.{Good};
ghost use Rattle.owned_sending.specs.Passing.{Payable};
ghost use Rattle.owned_sending.specs.Produce.{refusal_number, Lent, produced_of, OwnedProduce};

use crate::passing::{Turn, pass_own};
use crate::refusals::ProduceRefusal;
use queue_sending::Produced;
use queue_sending::fragment::hand_own;
use queue_sending::next_fragment::lent_code;
use queue_words::QUEUE_WORDS;
use types::Refusal;

// A refusal of what is lent and asked for, as the call's own.
fn refusal_of(r: Refusal) -> ProduceRefusal
    requires { Lent (types_refusal.refusal_number r) }
    ensures { refusal_number result ≡ types_refusal.refusal_number r }
{
    match r {
        Refusal::EventListShort => ProduceRefusal::EventListShort,
        Refusal::TimeLate => ProduceRefusal::TimeLate,
        Refusal::SizeWrong => ProduceRefusal::SizeWrong,
        _ => ProduceRefusal::BufferShort,
    }
}

// The next fragment of at most `size` bytes, after k events of earlier calls, as a filling asks for it. What is lent is judged by the
// caller.
pub fn produce_after(
    queue: &mut [u64; QUEUE_WORDS],
    store: &[u8],
    events: &mut [u64],
    buffer: &mut [u8],
    time: u64,
    size: u64,
    k: usize,
) -> Produced
    requires { Payable queue.old store.now events.old k × (size ≤ length buffer.old) }
    ensures { produced_with (made_of result) queue.new events.new buffer.new ≡ produced_after queue.old store.now events.old buffer.old time size k }
{
    let turn = pass_own(queue, store, events, time, k);
    match turn {
        Turn::Nothing(j) => Produced::Nothing(j),
        Turn::Head(j, at, id, row) => {
            let h = hand_own(queue, store, events, buffer, size, j, at, id, row);
            let d = h.fragment;
            Produced::Fragment(h.count, d)
        }
    }
}

// The next fragment of at most `size` bytes; the store is the queue's own, the event list and the fragment buffer are lent.
pub fn produce(
    queue: &mut [u64; QUEUE_WORDS],
    store: &[u8],
    events: &mut [u64],
    buffer: &mut [u8],
    time: u64,
    size: u64,
) -> Result<Produced, ProduceRefusal>
    requires { Good queue.old store.now }
    ensures { OwnedProduce queue.old store.now events.old buffer.old time size (produced_of result) queue.new events.new buffer.new }
{
    if let Err(refused) = lent_code(events.len() as u64, buffer.len() as u64, time, size) {
        return Err(refusal_of(refused));
    }
    Ok(produce_after(queue, store, events, buffer, time, size, 0))
}

// Creating a queue and adding a message with both promises: what they leave on the words, for every input, and that this is the
// model's creation and, on the words of a queue, the model's step.
#![tactic(auto)]

ghost use Rattle.queue_streams.specs.Answers.{as_call};
ghost use Rattle.linked_adding.specs.Create.{CreateMeets};
ghost use Rattle.linked_adding.specs.Add.{AddMeets};

use queue_messages::Message;
use queue_words::{QUEUE_WORDS, RestartRule, whole};
use types::Refusal;

// "Creation takes the payload limit, the store, the default priority, the default and total thresholds and the choice of handover
// with waiting data; interleaving starts off." Document 02, 6/13: "Creation chooses the rule, as in the Rust or strict."
pub fn create(
    queue: &mut [u64; QUEUE_WORDS],
    store: &[u8],
    payload_limit: u64,
    default_priority: u16,
    default_threshold: u64,
    total_threshold: u64,
    handover_with_data: bool,
    restart_rule: RestartRule,
) -> Result<usize, Refusal>
    ensures { CreateMeets queue.old store.now payload_limit default_priority default_threshold total_threshold handover_with_data restart_rule (as_call result) queue.new }
{
    whole(&*queue);
    queue_messages::create(
        queue,
        store,
        payload_limit,
        default_priority,
        default_threshold,
        total_threshold,
        handover_with_data,
        restart_rule,
    )
}

// Adds a message; the store is lent.
pub fn add(
    queue: &mut [u64; QUEUE_WORDS],
    store: &mut [u8],
    time: u64,
    m: Message,
    payload: &[u8],
) -> Result<usize, Refusal>
    ensures { AddMeets queue.old store.old time m payload.now (as_call result) queue.new store.new }
{
    queue_messages::add(queue, store, time, m, payload)
}

// Creating a queue in lent words.
ghost use Rattle.std.specs.Prelude.{◌≡◌, length};
ghost use Rattle.types.specs.Refusal.{check_number};
ghost use Rattle.queue_streams.specs.Answers.{as_call};
ghost use Rattle.queue_streams.specs.Settings.{called};
ghost use Rattle.queue_messages.specs.Create.{create_code, freed, new_words, create};

use queue_words::QUEUE_WORDS;
use queue_words::header::{
    Gaps, Options, RestartRule, SchedulerState, Totals, store_options, store_scheduler_state,
    store_totals,
};
use queue_words::items::{store_length, store_next, store_place};
use queue_words::limits::{MAX_PAYLOAD_LIMIT, MAX_STORE, MESSAGE_ROWS};
use types::{OutgoingMessageId, Refusal};

// Creation's refusals.
fn create_code(payload_limit: u64, store_length: u64) -> Result<(), Refusal>
    ensures { check_number result ≡ create_code payload_limit store_length }
{
    if payload_limit == 0 {
        return Err(Refusal::PayloadLimitWrong);
    }
    if payload_limit > MAX_PAYLOAD_LIMIT {
        return Err(Refusal::PayloadLimitWrong);
    }
    if store_length == 0 {
        return Err(Refusal::StoreWrong);
    }
    if store_length > MAX_STORE {
        return Err(Refusal::StoreWrong);
    }
    Ok(())
}

// All places are free, chained in their order; none has a payload, and none points past the store.
pub fn free_all(queue: &mut [u64; QUEUE_WORDS])
    ensures { queue.new ≡ freed queue.old 1024 }
{
    for i in 0..MESSAGE_ROWS {
        store_length(queue, i, 0);
        store_place(queue, i, 0);
        store_next(queue, i, (i + 1) as u64);
    }
}

// The words of a new queue.
fn write_new(queue: &mut [u64; QUEUE_WORDS], o: Options)
    ensures { queue.new ≡ new_words queue.old o }
{
    store_options(queue, o);
    store_totals(
        queue,
        Totals {
            interleaving: false,
            next_message_id: OutgoingMessageId(0),
            total: 0,
            known: 0,
            waiting: 0,
            free: 0,
            used: 0,
            gaps: Gaps {
                end: 0,
                limit: 0,
                from: 0,
                upto: 0,
            },
        },
    );
    store_scheduler_state(
        queue,
        SchedulerState {
            current: None,
            system_virtual_time: 0,
            active: 0,
        },
    );
    free_all(queue);
}

// "Creation takes the payload limit, the store, the default priority, the default and total thresholds and the choice of handover
// with waiting data; interleaving starts off." (Rust: SendQueue::new) Document 02, 6/13: "Creation chooses the rule, as in the Rust or strict."
pub fn create(
    queue: &mut [u64; QUEUE_WORDS],
    store: &[u8],
    payload_limit: u64,
    default_priority: u16,
    default_threshold: u64,
    total_threshold: u64,
    handover_with_data: bool,
    restart_rule: RestartRule,
) -> Result<usize, Refusal>
    ensures { called (as_call result) queue.new ≡ create queue.old (length store.now) payload_limit default_priority default_threshold total_threshold handover_with_data restart_rule }
{
    let len = store.len() as u64;
    create_code(payload_limit, len)?;
    let strict = restart_rule.is_strict();
    write_new(
        queue,
        Options {
            payload_limit: (payload_limit % 65536) as u16,
            default_priority: default_priority,
            handover_with_data: handover_with_data,
            store_length: len,
            default_threshold: default_threshold,
            total_threshold: total_threshold,
            strict_restart: strict,
        },
    );
    Ok(0)
}

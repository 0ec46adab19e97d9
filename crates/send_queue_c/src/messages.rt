// Creating a queue, adding a message, discarding one.
ghost use Rattle.std.specs.Prelude.{◌≡◌, length};
ghost use Rattle.queue_messages.specs.Add.{add};
ghost use Rattle.queue_messages.specs.Create.{create};
ghost use Rattle.queue_messages.specs.Discard.{discard};
ghost use Rattle.send_queue_c.specs.Numbers.{is_yes, restart_rule_of, message_of_words};
ghost use Rattle.send_queue_c.specs.Given.{Gives, GivesEvents, GivesStore};

use host_numbers::{call_number, is_yes, message_of, tell_call};
use out_array::OUT_WORDS;
use send_queue::{QUEUE_WORDS, RestartRule, add, create, discard};

// DSQ_RESTART_DCSCTP or DSQ_RESTART_STRICT of c/send_queue.h.
fn restart_rule_of(rule: u8) -> RestartRule
    ensures { result ≡ restart_rule_of (is_yes rule) }
{
    let strict = is_yes(rule);
    if strict {
        return RestartRule::Strict;
    }
    RestartRule::Dcsctp
}

#[unsafe(no_mangle)]
pub extern "C" fn dsq_create(
    queue: &mut [u64; QUEUE_WORDS],
    store: &[u8],
    payload_limit: u64,
    default_priority: u16,
    default_threshold: u64,
    total_threshold: u64,
    handover_with_data: u8,
    restart_rule: u8,
) -> u32
    ensures { Gives (create queue.old (length store.now) payload_limit default_priority default_threshold total_threshold (is_yes handover_with_data) (restart_rule_of (is_yes restart_rule))) result queue.new }
{
    let with_data = is_yes(handover_with_data);
    let rule = restart_rule_of(restart_rule);
    let c = create(
        queue,
        store,
        payload_limit,
        default_priority,
        default_threshold,
        total_threshold,
        with_data,
        rule,
    );
    call_number(c)
}

#[unsafe(no_mangle)]
pub extern "C" fn dsq_add(
    queue: &mut [u64; QUEUE_WORDS],
    store: &mut [u8],
    payload: &[u8],
    time: u64,
    stream_id: u16,
    ppid: u32,
    unordered: u8,
    has_lifetime: u8,
    lifetime: u64,
    has_retransmissions: u8,
    max_retransmissions: u16,
    lifecycle_id: u64,
) -> u32
    ensures { GivesStore (add queue.old store.old time (message_of_words stream_id ppid unordered has_lifetime lifetime has_retransmissions max_retransmissions lifecycle_id) payload.now) result queue.new store.new }
{
    let m = message_of(
        stream_id,
        ppid,
        unordered,
        has_lifetime,
        lifetime,
        has_retransmissions,
        max_retransmissions,
        lifecycle_id,
    );
    let c = add(queue, store, time, m, payload);
    call_number(c)
}

#[unsafe(no_mangle)]
pub extern "C" fn dsq_discard(
    queue: &mut [u64; QUEUE_WORDS],
    events: &mut [u64],
    out: &mut [u64; OUT_WORDS],
    stream_id: u16,
    message_id: u32,
) -> u32
    ensures { GivesEvents (discard queue.old events.old stream_id message_id) out.old result queue.new events.new out.new }
{
    let c = discard(queue, events, stream_id, message_id);
    tell_call(out, c)
}

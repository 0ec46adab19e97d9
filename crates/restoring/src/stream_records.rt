// Restoring, first: a queue without messages, and its streams from their records.
ghost use Rattle.std.specs.Prelude.{◌≡◌, ◌≤◌};
ghost use Rattle.restoring.specs.Streams.{emptied, restored_stream_words, stream_restored, streams_restored};

use handover_records::records::HandoverOutgoingStream;
use image_reader::read_stream;
use queue_messages::creation::free_all;
use queue_streams::insert_stream;
use queue_words::QUEUE_WORDS;
use queue_words::header::{
    Gaps, Options, SchedulerState, Totals, load_options, load_totals, store_scheduler_state,
    store_totals,
};
use queue_words::limits::{LAST_STREAM, NO_MESSAGE};
use queue_words::streams::{OutgoingStream, PauseState};
use types::{Mid, OutgoingMessageId, Ssn};

// No message, no known stream; the choice of interleaving stays.
pub fn empty_queue(queue: &mut [u64; QUEUE_WORDS], next_message_id: u32)
    ensures { queue.new ≡ emptied queue.old next_message_id }
{
    let t = load_totals(&*queue);
    store_totals(
        queue,
        Totals {
            interleaving: t.interleaving,
            next_message_id: OutgoingMessageId(next_message_id),
            total: 0,
            known: 0,
            waiting: 0,
            free: 0,
            used: 0,
            gaps: Gaps {
                end: 0,
                limit: 0,
                from: 0,
                upto: 0,
            },
        },
    );
    store_scheduler_state(
        queue,
        SchedulerState {
            current: None,
            system_virtual_time: 0,
            active: 0,
        },
    );
    free_all(queue);
}

// "Restored streams are open, with default thresholds."
fn restored_stream(o: Options, r: HandoverOutgoingStream) -> OutgoingStream
    ensures { result ≡ restored_stream_words o r }
{
    OutgoingStream {
        priority: r.priority,
        pause_state: PauseState::NotPaused,
        next_ssn: Ssn(r.next_ssn),
        next_unordered_mid: Mid(r.next_unordered_mid),
        next_ordered_mid: Mid(r.next_ordered_mid),
        buffered_amount: 0,
        low_threshold: o.default_threshold,
        first: NO_MESSAGE,
        last: NO_MESSAGE,
    }
}

// The stream of the record at `at`, behind the known ones.
fn restore_stream(queue: &mut [u64; QUEUE_WORDS], image: &[u8], at: usize)
    ensures { queue.new ≡ stream_restored queue.old image.now at }
{
    if image.len() < 14 {
        return;
    }
    if at > image.len() - 14 {
        return;
    }
    let t = load_totals(&*queue);
    if t.known > LAST_STREAM {
        return;
    }
    let r = read_stream(image, at);
    let o = load_options(&*queue);
    let s = restored_stream(o, r);
    insert_stream(queue, t.known as usize, r.id, s);
}

// The streams of the first n records.
pub fn restore_streams(queue: &mut [u64; QUEUE_WORDS], image: &[u8], n: usize)
    requires { n ≤ 65535 }
    ensures { queue.new ≡ streams_restored queue.old image.now n }
{
    for i in 0..n {
        restore_stream(queue, image, i * 14);
    }
}

// The header: the creation's arguments from word 0, the totals from word 7, the scheduler's state from word 18.
ghost use Rattle.std.specs.Prelude.{◌≡◌};
ghost use Rattle.queue_words.specs.Header.{is_strict, options_out, options_in, options_at, put_options, FitsOptions};
ghost use Rattle.queue_words.specs.Header.{totals_out, totals_in, totals_at, put_totals, FitsTotals};
ghost use Rattle.queue_words.specs.Header.{remembered_of, remembered_word, scheduler_out, scheduler_in, scheduler_at, put_scheduler};

use crate::QUEUE_WORDS;
use types::{OutgoingMessageId, StreamId};

const OPTIONS: usize = 0;

const TOTALS: usize = 7;

const SCHEDULER: usize = 18;

// Document 02, 6/13: "Creation chooses the rule, as in the Rust or strict." How a whole-queue reset puts a half-sent message back: with its numbers, as
// dcSCTP does, or as one
// that was never begun, as RFC 8260 has it.
#[derive(Clone, Copy, Debug, PartialEq, Eq)]
pub enum RestartRule {
    Dcsctp,
    Strict,
}

impl RestartRule {
    pub fn is_strict(self) -> bool
        ensures { result ≡ is_strict self }
    {
        self == RestartRule::Strict
    }
}

// What a queue was created with.
#[derive(Clone, Copy, Debug, PartialEq, Eq)]
pub struct Options {
    pub payload_limit: u16,
    pub default_priority: u16,
    pub handover_with_data: bool,
    pub store_length: u64,
    pub default_threshold: u64,
    pub total_threshold: u64,
    // Whether the rule is RestartRule::Strict.
    pub strict_restart: bool,
}

// Free bytes of the store that are known: those from `end` up to `limit`, where the next payload goes, and those from `from` up to `upto`.
#[derive(Clone, Copy, Debug, PartialEq, Eq)]
pub struct Gaps {
    pub end: u64,
    pub limit: u64,
    pub from: u64,
    pub upto: u64,
}

#[derive(Clone, Copy, Debug, PartialEq, Eq)]
pub struct Totals {
    pub interleaving: bool,
    pub next_message_id: OutgoingMessageId,
    // The amount of all streams together.
    pub total: u64,
    // How many streams are known.
    pub known: u64,
    // How many messages wait.
    pub waiting: u64,
    // The first place of the chain of free message places, 1024 for none.
    pub free: u64,
    // The occupied bytes of the store, and its known gaps.
    pub used: u64,
    pub gaps: Gaps,
}

// The word for no stream, the least that is no id.
const NO_STREAM: u64 = 65536;

// The remembered stream of a word. A word above 65536, which no queue holds, is taken for none.
fn remembered_of(w: u64) -> Option<StreamId>
    ensures { result ≡ remembered_of w }
{
    if w < NO_STREAM {
        return Some(StreamId(w as u16));
    }
    None
}

fn remembered_word(r: Option<StreamId>) -> u64
    ensures { result ≡ remembered_word r }
{
    match r {
        None => NO_STREAM,
        Some(id) => id.0 as u64,
    }
}

#[derive(Clone, Copy, Debug, PartialEq, Eq)]
pub struct SchedulerState {
    // "the stream in mid-message if one is remembered".
    pub current: Option<StreamId>,
    pub system_virtual_time: u64,
    // How many rows of the active table are in use.
    pub active: u64,
}

fn options_out(queue: &[u64; QUEUE_WORDS]) -> Options
    ensures { result ≡ options_out queue.now }
{
    Options {
        payload_limit: (queue[OPTIONS + 0] % 65536) as u16,
        default_priority: (queue[OPTIONS + 1] % 65536) as u16,
        handover_with_data: queue[OPTIONS + 2] == 1,
        store_length: queue[OPTIONS + 3],
        default_threshold: queue[OPTIONS + 4],
        total_threshold: queue[OPTIONS + 5],
        strict_restart: queue[OPTIONS + 6] == 1,
    }
}

fn options_in(queue: &mut [u64; QUEUE_WORDS], o: Options)
    ensures { queue.new ≡ options_in queue.old o }
{
    queue[OPTIONS + 0] = o.payload_limit as u64;
    queue[OPTIONS + 1] = o.default_priority as u64;
    queue[OPTIONS + 2] = o.handover_with_data as u64;
    queue[OPTIONS + 3] = o.store_length;
    queue[OPTIONS + 4] = o.default_threshold;
    queue[OPTIONS + 5] = o.total_threshold;
    queue[OPTIONS + 6] = o.strict_restart as u64;
}

pub fn load_options(queue: &[u64; QUEUE_WORDS]) -> Options
    ensures { result ≡ options_at queue.now }
{
    options_out(queue)
}

pub fn store_options(queue: &mut [u64; QUEUE_WORDS], o: Options)
    ensures { queue.new ≡ put_options queue.old o }
{
    options_in(queue, o)
}

// Does nothing at run time; gives a proof the bounds of the fields' types. So does each `.._fits` of the tables.
pub fn options_fits(o: Options)
    ensures { FitsOptions o }
{}

fn totals_out(queue: &[u64; QUEUE_WORDS]) -> Totals
    ensures { result ≡ totals_out queue.now }
{
    Totals {
        interleaving: queue[TOTALS + 0] == 1,
        next_message_id: OutgoingMessageId((queue[TOTALS + 1] % 4294967296) as u32),
        total: queue[TOTALS + 2],
        known: queue[TOTALS + 3],
        waiting: queue[TOTALS + 4],
        free: queue[TOTALS + 5],
        used: queue[TOTALS + 6],
        gaps: Gaps {
            end: queue[TOTALS + 7],
            limit: queue[TOTALS + 8],
            from: queue[TOTALS + 9],
            upto: queue[TOTALS + 10],
        },
    }
}

fn totals_in(queue: &mut [u64; QUEUE_WORDS], t: Totals)
    ensures { queue.new ≡ totals_in queue.old t }
{
    queue[TOTALS + 0] = t.interleaving as u64;
    queue[TOTALS + 1] = t.next_message_id.0 as u64;
    queue[TOTALS + 2] = t.total;
    queue[TOTALS + 3] = t.known;
    queue[TOTALS + 4] = t.waiting;
    queue[TOTALS + 5] = t.free;
    queue[TOTALS + 6] = t.used;
    queue[TOTALS + 7] = t.gaps.end;
    queue[TOTALS + 8] = t.gaps.limit;
    queue[TOTALS + 9] = t.gaps.from;
    queue[TOTALS + 10] = t.gaps.upto;
}

pub fn load_totals(queue: &[u64; QUEUE_WORDS]) -> Totals
    ensures { result ≡ totals_at queue.now }
{
    totals_out(queue)
}

pub fn store_totals(queue: &mut [u64; QUEUE_WORDS], t: Totals)
    ensures { queue.new ≡ put_totals queue.old t }
{
    totals_in(queue, t)
}

pub fn totals_fits(t: Totals)
    ensures { FitsTotals t }
{}

fn scheduler_out(queue: &[u64; QUEUE_WORDS]) -> SchedulerState
    ensures { result ≡ scheduler_out queue.now }
{
    let current = remembered_of(queue[SCHEDULER + 0]);
    SchedulerState {
        current,
        system_virtual_time: queue[SCHEDULER + 1],
        active: queue[SCHEDULER + 2],
    }
}

fn scheduler_in(queue: &mut [u64; QUEUE_WORDS], s: SchedulerState)
    ensures { queue.new ≡ scheduler_in queue.old s }
{
    let word = remembered_word(s.current);
    queue[SCHEDULER + 0] = word;
    queue[SCHEDULER + 1] = s.system_virtual_time;
    queue[SCHEDULER + 2] = s.active;
}

pub fn load_scheduler_state(queue: &[u64; QUEUE_WORDS]) -> SchedulerState
    ensures { result ≡ scheduler_at queue.now }
{
    scheduler_out(queue)
}

pub fn store_scheduler_state(queue: &mut [u64; QUEUE_WORDS], s: SchedulerState)
    ensures { queue.new ≡ put_scheduler queue.old s }
{
    scheduler_in(queue, s)
}

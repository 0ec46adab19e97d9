// Priorities for a wanted order: the line `P limit n id1 .. idn m size1 .. sizem`.
ghost use Rattle.std.specs.Prelude.{◌≤◌};

use lent_calls::LentError;
use send_queue::{MAX_PLANNED, PlannedPriorities, plan_priorities};
use trace_text::output::{Answers, put_answer, put_byte, put_number, put_text};
use trace_text::state::{BITS16, COUNT, STATE, low16, wide16};

// "each list at most 64".
const LISTED: usize = 64;
// The place of the count of ids; the ids stand behind it, then the count of sizes, then the sizes.
const IDS: usize = 1;

// A list's count.
fn count_at(state: &[u64; STATE], at: usize) -> usize
    ensures { result ≤ 64 }
{
    if at > IDS + LISTED + 1 {
        return 0;
    }
    let n = state[at];
    if n > 64 {
        return LISTED;
    }
    n as usize
}

// Whether so many ids are in their range.
fn ids_fit(state: &[u64; STATE], n: usize) -> bool {
    let from = IDS + 1;
    state[from..from + n.min(LISTED)]
        .iter()
        .all(|id| *id <= BITS16)
}

// Whether the numbers of the line are a limit and two lists, each with its count before it.
pub fn is_plan(state: &[u64; STATE]) -> bool {
    if state[COUNT] < 3 {
        return false;
    }
    let n = count_at(state, IDS);
    if state[IDS] != n as u64 {
        return false;
    }
    let m = count_at(state, IDS + 1 + n);
    if state[IDS + 1 + n] != m as u64 {
        return false;
    }
    if state[COUNT] != (n + m + 3) as u64 {
        return false;
    }
    ids_fit(state, n)
}

fn take_ids(state: &[u64; STATE], ids: &mut [u16; LISTED]) {
    for i in 0..LISTED {
        ids[i] = low16(state[IDS + 1 + i]);
    }
}

fn take_sizes(state: &[u64; STATE], sizes: &mut [u64; LISTED]) {
    let from = IDS + 2 + count_at(state, IDS);
    sizes.copy_from_slice(&state[from..from + LISTED]);
}

// The priorities for the first so many ids and sizes.
fn plan_first(
    state: &[u64; STATE],
    ids: &[u16],
    sizes: &[u64],
) -> Result<PlannedPriorities, LentError> {
    let n = count_at(state, IDS);
    let m = count_at(state, IDS + 1 + n);
    if n > ids.len() {
        return Err(LentError::TooShort);
    }
    if m > sizes.len() {
        return Err(LentError::TooShort);
    }
    Ok(plan_priorities(state[0], &ids[0..n], &sizes[0..m])?)
}

fn plan_lists(
    state: &[u64; STATE],
    ids: &[u16; LISTED],
    sizes: &[u64; LISTED],
) -> Result<PlannedPriorities, LentError> {
    plan_first(state, ids, sizes)
}

fn plan(state: &[u64; STATE]) -> Result<PlannedPriorities, LentError> {
    let mut ids = [0u16; LISTED];
    let mut sizes = [0u64; LISTED];
    take_ids(state, &mut ids);
    take_sizes(state, &mut sizes);
    plan_lists(state, &ids, &sizes)
}

fn put_priorities(output: &mut Answers, values: &[u16; MAX_PLANNED], count: usize) {
    put_text(output, b"P 0");
    for value in &values[..count.min(MAX_PLANNED)] {
        put_number(output, wide16(*value));
    }
    put_byte(output, b'\n');
}

pub fn answer_plan(output: &mut Answers, state: &[u64; STATE]) {
    match plan(state) {
        Ok(planned) => {
            let values = planned.values;
            put_priorities(output, &values, planned.count);
        }
        Err(e) => put_answer(output, b'P', e.number()),
    }
}

// The planner's call.
ghost use Rattle.std.specs.Prelude.{◌≡◌, false, ◌<◌, ◌≤◌, length};
ghost use Rattle.priority_plan.specs.Works.{planned_streams};
ghost use Rattle.priority_plan.specs.Lists.{max_planned, size_outside};
ghost use Rattle.priority_plan.specs.Least.{max_limit};
ghost use Rattle.priority_plan.specs.Plan.{as_plan, least_plan, planned};

use crate::least::{bound_before, finish_time, least_priority};
use crate::lists::{MAX_PLANNED, list_wrong};
use queue_words::limits::MAX_PAYLOAD_LIMIT;
use types::Refusal;

// "priorities from 1 to 65,535".
const MAX_PRIORITY: u64 = 65535;
// Above every finish time.
const NO_BOUND: u64 = 65535000001;

// The priorities, in the list's order, come by value with their count. They are the first `count`; the others are 0.
#[derive(Clone, Copy)]
pub struct PlannedPriorities {
    pub count: usize,
    pub values: [u16; MAX_PLANNED],
}

// The least priorities, from the last stream to the first; 29 where one would pass 65,535.
fn least_plan(limit: u64, ids: &[u16], sizes: &[u64]) -> Result<PlannedPriorities, Refusal>
    requires { ((0 < limit) × (limit ≤ max_limit)) × ((length ids.now ≤ max_planned) × ((length ids.now ≡ length sizes.now) × (size_outside sizes.now ≡ false))) }
    ensures { as_plan result ≡ least_plan limit (planned_streams ids.now sizes.now) }
{
    let mut values = [0u16; MAX_PLANNED];
    // Behind the last stream stands none: its bound is above every finish time, and no id is below 0.
    let mut finish: u64 = NO_BOUND;
    let mut next: u16 = 0;
    for at in (0..ids.len()).rev() {
        let id = ids[at];
        let size = sizes[at];
        let bound = bound_before(id, next, finish);
        let priority = least_priority(limit, size, bound);
        if MAX_PRIORITY < priority {
            return Err(Refusal::OrderImpossible);
        }
        values[at] = priority as u16;
        finish = finish_time(limit, size, priority);
        next = id;
    }
    Ok(PlannedPriorities {
        count: ids.len(),
        values: values,
    })
}

// Priorities from 1 to 65,535 which, set on a new interleaving queue before the messages are added, put the streams' first fragments in the list's
// order; each is the least
// that any working set has for that stream. 1 for a wrong payload limit, then 28 for a wrong list, then 29 where no set works.
pub fn plan_priorities(
    payload_limit: u64,
    ids: &[u16],
    sizes: &[u64],
) -> Result<PlannedPriorities, Refusal>
    ensures { as_plan result ≡ planned payload_limit ids.now sizes.now }
{
    if payload_limit < 1 {
        return Err(Refusal::PayloadLimitWrong);
    }
    if MAX_PAYLOAD_LIMIT < payload_limit {
        return Err(Refusal::PayloadLimitWrong);
    }
    let wrong = list_wrong(ids, sizes);
    if wrong {
        return Err(Refusal::OrderWrong);
    }
    least_plan(payload_limit, ids, sizes)
}

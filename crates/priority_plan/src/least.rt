// One stream's finish time, and the least priority that keeps it below a bound.
ghost use Rattle.std.specs.Prelude.{◌≡◌, ◌/◌, ◌<◌, ◌≤◌};
ghost use Rattle.priority_plan.specs.Least.{max_limit, full_cost, no_bound, bound_before, least_priority};

// "bytes × 1,000,000 / weight": what a byte costs at priority 1.
const BYTE_COST: u64 = 1000000;

// The cost of a first fragment at priority 1: that of "min(remaining, payload limit)" bytes.
fn full_cost(limit: u64, size: u64) -> u64
    requires { limit ≤ max_limit }
    ensures { result ≡ full_cost limit size }
{
    if size < limit {
        return size * BYTE_COST;
    }
    limit * BYTE_COST
}

// The finish time of a first fragment on a new queue, whose system time is 0.
pub fn finish_time(limit: u64, size: u64, priority: u64) -> u64
    requires { (limit ≤ max_limit) × (0 < priority) }
    ensures { result ≡ full_cost limit size / priority }
{
    full_cost(limit, size) / priority
}

// What a finish time must stay below to come before the next one: "the smallest finish time, then the smallest id".
pub fn bound_before(id: u16, next: u16, finish: u64) -> u64
    requires { finish ≤ no_bound }
    ensures { result ≡ bound_before id next finish }
{
    if id < next {
        return finish + 1;
    }
    finish
}

// The least priority whose finish time is below a bound, by one division.
pub fn least_priority(limit: u64, size: u64, bound: u64) -> u64
    requires { (limit ≤ max_limit) × (0 < bound) }
    ensures { result ≡ least_priority limit size bound }
{
    full_cost(limit, size) / bound + 1
}

// Priorities for a wanted order.
ghost use Rattle.std.specs.Prelude.{◌≡◌, length, ◌≤◌};
ghost use Rattle.priority_plan.specs.Lists.{max_planned};
ghost use Rattle.priority_plan.specs.Plan.{as_plan, planned};
ghost use Rattle.queue_streams.specs.Answers.{call_number};
ghost use Rattle.send_queue_c.specs.Numbers.{planned_places};
ghost use Rattle.send_queue_c.specs.Given.{GivesPriorities};

use host_numbers::copy_first;
use send_queue::{MAX_PLANNED, PlannedPriorities, Refusal, plan_priorities};

// Does nothing at run time; gives a proof that there are 32 places.
fn whole(values: &[u16; MAX_PLANNED])
    ensures { length values.now ≡ max_planned }
{
    let _values: &[u16] = values;
}

fn tell_planned(priorities: &mut [u16; MAX_PLANNED], a: Result<PlannedPriorities, Refusal>) -> u32
    requires { (as_plan a).count ≤ max_planned }
    ensures { (result ≡ call_number (as_plan a).answer) × (priorities.new ≡ planned_places priorities.old (as_plan a)) }
{
    match a {
        Ok(plan) => {
            let from = plan.values;
            whole(&*priorities);
            whole(&from);
            copy_first(priorities, &from, plan.count);
            0
        }
        Err(refusal) => u8::from(refusal) as u32,
    }
}

// "give priorities from 1 to 65,535 which, set on a new interleaving queue before the messages are added, make the scheduler's finish times and ids put those first fragments in that order".
#[unsafe(no_mangle)]
pub extern "C" fn dsq_plan_priorities(
    ids: &[u16],
    sizes: &[u64],
    priorities: &mut [u16; MAX_PLANNED],
    payload_limit: u64,
) -> u32
    ensures { GivesPriorities (planned payload_limit ids.now sizes.now) priorities.old result priorities.new }
{
    let a = plan_priorities(payload_limit, ids, sizes);
    tell_planned(priorities, a)
}

// A plan as it reads when each run of repeated steps is one step. Whoever chooses among its steps in order can choose no more than that.
ghost use Rattle.std.specs.Prelude.{◌≡◌, ◌+◌, ◌*◌, ◌≤◌, ◌<◌, length, set};
ghost use Rattle.trade.specs.Limits.{step_bytes};
ghost use Rattle.plans.specs.Plan.{steps_in};
ghost use Rattle.plans.specs.Single.{again, singles, Singled};

use crate::steps::{step_at, step_count};
use trade::{Plan, Transmission};

// Whether a step is the same as the one before it.
fn is_again(plan: &[u8], k: usize) -> bool
    requires { step_bytes * k + 1 < length plan.now }
    ensures { result ≡ again plan.now k }
{
    k > 0 && step_at(plan, k - 1) == step_at(plan, k)
}

// A step written at a place.
fn put_step(out: &mut [u8], k: usize, u: Transmission)
    requires { step_bytes * k + 1 < length out.old }
    ensures { out.new ≡ set (set out.old (step_bytes * k) u.sender.0) (step_bytes * k + 1) u.receiver.0 }
{
    let at = Plan::STEP_BYTES * k;
    out[at] = u.sender.0;
    out[at + 1] = u.receiver.0;
}

// The steps of a plan that are not the same as the one before, over the front of a buffer; how many they are. There is no heap for a Vec.
pub fn single(plan: &[u8], out: &mut [u8]) -> usize
    requires { length plan.now ≤ length out.old }
    ensures { Singled plan.now out.old out.new × (result ≡ singles plan.now (steps_in plan.now)) }
{
    let len = step_count(plan);
    let mut found = 0;
    for k in 0..len {
        if !is_again(plan, k) {
            put_step(out, found, step_at(plan, k));
            found += 1;
        }
    }
    found
}

// The steps of a plan, read where they lie.
ghost use Rattle.std.specs.Prelude.{◌≡◌, ◌+◌, ◌*◌, ◌<◌, length};
ghost use Rattle.trade.specs.Limits.{step_bytes};
ghost use Rattle.trade.specs.Facts.{step_in};
ghost use Rattle.plans.specs.Plan.{steps_in, plan_in, step_or};

use trade::{Node, Plan, Transmission};

// A step is a sender and a receiver, a byte each.
pub fn step_at(steps: &[u8], k: usize) -> Transmission
    requires { step_bytes * k + 1 < length steps.now }
    ensures { result ≡ step_in steps.now k }
{
    let at = Plan::STEP_BYTES * k;
    Transmission {
        sender: Node(steps[at]),
        receiver: Node(steps[at + 1]),
    }
}

// The whole steps that a part holds.
pub fn step_count(steps: &[u8]) -> usize
    ensures { result ≡ steps_in steps.now }
{
    steps.len() / Plan::STEP_BYTES
}

// The step at any place: 0 to 0 where the part holds none. Not an Option, since callers are promised `step_or`.
pub fn step_or_none(steps: &[u8], k: usize) -> Transmission
    ensures { result ≡ step_or steps.now k }
{
    if k < step_count(steps) {
        step_at(steps, k)
    } else {
        Transmission {
            sender: Node(0),
            receiver: Node(0),
        }
    }
}

// The part that holds so many steps from one on. Where the section ends before them it is shorter.
pub fn plan_part(steps: &[u8], first: usize, count: usize) -> &[u8]
    ensures { result.now ≡ plan_in steps.now first count }
{
    if step_count(steps) < first {
        return &steps[..0];
    }
    let from = Plan::STEP_BYTES * first;
    let rest = &steps[from..];
    if step_count(rest) < count {
        return rest;
    }
    let to = Plan::STEP_BYTES * count;
    &rest[..to]
}

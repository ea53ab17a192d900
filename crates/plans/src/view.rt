// A view of a plan: its steps, held where they lie in the lent book. Whoever has a steps section calls `plan_step`, whose parameters are
// plain. The others are functions, and no methods, as the theorems of `proofs/Unique.antt` name them.
ghost use Rattle.std.specs.Prelude.{◌≡◌};
ghost use Rattle.plans.specs.Plan.{steps_in, step_or, plan_step};

use crate::steps::{plan_part, step_count, step_or_none};
use trade::Transmission;

// The part of a book that holds one plan's steps.
#[derive(Clone, Copy)]
pub struct PlanView<'a> {
    pub steps: &'a [u8],
}

// The view of a part.
pub fn view_of<'a>(part: &'a [u8]) -> PlanView<'a>
    ensures { result.steps ≡ part.entry }
{
    PlanView { steps: part }
}

// The length of the plan.
pub fn view_len<'a>(v: PlanView<'a>) -> usize
    ensures { result ≡ steps_in v.entry.steps.now }
{
    step_count(v.steps)
}

// The step at any place of the plan.
pub fn view_step<'a>(v: PlanView<'a>, j: usize) -> Transmission
    ensures { result ≡ step_or v.entry.steps.now j }
{
    step_or_none(v.steps, j)
}

// The step at any place of the plan that has so many steps of a section from one on.
pub fn plan_step(steps: &[u8], first: usize, count: usize, j: usize) -> Transmission
    ensures { result ≡ plan_step steps.now first count j }
{
    view_step(view_of(plan_part(steps, first, count)), j)
}

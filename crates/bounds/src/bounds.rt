// The response bounds of all flows of a book or a table, and code 9.
ghost use Rattle.std.specs.Prelude.{◌≡◌, [], ℕ, ◌+◌, ◌≤◌, ◌<◌, get_or};
ghost use Rattle.trade.specs.Limits.{most_period};
ghost use Rattle.trade.specs.Layout.{field};
ghost use Rattle.trade.specs.Facts.{facts_in};
ghost use Rattle.trade.specs.Bound.{bound_by, fairly};
ghost use Rattle.bounds.specs.Bounds.{Timed, by_costs, checked_by, bounded_in, bounded_by};

use crate::costs::Costs;
use crate::rising::smallest;
use figures::heard::Heard;
use sections::parts::Parts;
use sections::records::record_at;
use trade::{Answer, Flow, Node, Refusal};

// The bound of each flow, and zeros elsewhere.
pub type Bounds = [u16; Flow::MOST];

// An answer, and the bounds of the flows with zeros elsewhere; refused, all zeros. Not a Result, since `ChecksAs` promises those zeros.
#[derive(Clone, Copy)]
pub struct Checked {
    pub answer: Answer,
    pub bounds: Bounds,
}

impl From<Result<Bounds, Refusal>> for Checked {
    ghost from_gives = { λ bounds checked. checked ≡ checked_by bounds };

    fn from(bounds: Result<Bounds, Refusal>) -> Checked {
        match bounds {
            Ok(bounds) => Checked {
                answer: Answer::done(0),
                bounds,
            },
            Err(refusal) => Checked {
                answer: refusal.answer(),
                bounds: [0; Flow::MOST],
            },
        }
    }
}

// The bound of flow l, by the costs, the periods and the carry-in of the flows above it; its deadline + 1 where it has none, and no Option,
// as `bound_by` says it.
fn bound_at<C: Costs>(
    records: &[u8],
    costs: &C,
    l: usize,
    periods: &[u16; Flow::MOST],
    carries: &[u16; Flow::MOST],
) -> u32
    requires timed { Timed (l + 1) records.now }
    requires told { C.can_tell costs.now l }
    requires by_period { (h : ℕ) → h < l → get_or periods.now h 0 ≡ field records.now h 2 }
    requires by_carry { (h : ℕ) → h < l → (1 ≤ get_or carries.now h 0) × (get_or carries.now h 0 ≤ most_period) }
    ensures { result ≡ bound_by (facts_in 0 0 [] records.now []) (by_costs (C.cost costs.now) (λ h. get_or carries.now h 0)) l }
{
    let flow = record_at(records, l);
    let line = costs.line(l);
    smallest(
        flow.len as u32,
        flow.deadline as u32,
        l,
        &line,
        periods,
        carries,
    )
}

// The bounds of all flows, or code 9 at the first flow that has none. The carry-in of a flow is its bound.
pub(crate) fn bounds_by<C: Costs>(
    flows: usize,
    records: &[u8],
    costs: &C,
) -> Result<Bounds, Refusal>
    requires timed { Timed flows records.now }
    requires told { (l : ℕ) → l < flows → C.can_tell costs.now l }
    ensures { checked_by result ≡ bounded_in (facts_in 0 flows [] records.now []) (fairly (facts_in 0 flows [] records.now []) (C.cost costs.now)) }
{
    let mut bounds = [0u16; Flow::MOST];
    let mut periods = [0u16; Flow::MOST];
    for l in 0..flows {
        let flow = record_at(records, l);
        let bound = bound_at(records, costs, l, &periods, &bounds);
        if (flow.deadline as u32) < bound {
            return Err(Refusal::Late(l));
        }
        bounds[l] = bound as u16;
        periods[l] = flow.period;
    }
    Ok(bounds)
}

// The bounds of the flows of a book, by their interference.
pub fn bounds_of(parts: Parts) -> Result<Bounds, Refusal>
    ensures { checked_by result ≡ bounded_by (facts_in 0 parts.entry.flows parts.entry.rows.now parts.entry.records.now parts.entry.steps.now) }
{
    let mut room = [0u64; Node::MOST];
    bounds_by(parts.flows, parts.records, &Heard::of(parts, &mut room))
}

// The figures of the flows above a flow, by the columns of its plan, as one line.
ghost use Rattle.std.specs.Prelude.{◌≡◌, ℕ, ◌*◌, ◌<◌, ◌≤◌, length};
ghost use Rattle.trade.specs.Limits.{record_bytes, most_flows, most_nodes, most_steps};
ghost use Rattle.trade.specs.First.{list_to};
ghost use Rattle.trade.specs.Bytes.{padded};
ghost use Rattle.pairs.specs.Columns.{Narrow};
ghost use Rattle.sections.specs.Formed.{plan_at};
ghost use Rattle.figures.specs.Figures.{figure_by, Asked};

use crate::lanes::{lay_group, read_out};
use crate::rises::worked_out;
use trade::{Flow, Plan};

// The interference of each flow above l on it, zeros elsewhere, by the columns of the plan of l, which has so many steps. As many flows as
// have room are worked out side by side.
pub(crate) fn figures_by(
    columns: &[u64],
    width: usize,
    records: &[u8],
    steps: &[u8],
    l: usize,
) -> [u32; Flow::MOST]
    requires l_lt_most_flows { (l < most_flows) × (record_bytes * l ≤ length records.now) × (most_nodes ≤ length columns.now) × (width ≤ most_steps) × Narrow width columns.now }
    requires by_index { (h : ℕ) → h < l → Asked (plan_at records.now steps.now h) }
    ensures { result ≡ padded most_flows (list_to (λ h. figure_by columns.now width (plan_at records.now steps.now h)) l) }
{
    let mut figures = [0u32; Flow::MOST];
    let mut start = 0;
    let mut h = 0;
    // Not a count over a range: only a group that is laid tells where the next one begins.
    while h < l {
        let mut words = [0u64; Plan::MOST];
        let laid = lay_group(columns, width, records, steps, h, start, l, &mut words);
        let line = worked_out(&words, laid.longest, laid.ends);
        read_out(line, width, h, laid.next, &mut figures);
        start = laid.start;
        h = laid.next;
    }
    figures
}

// Plans above a flow, laid side by side into words: a lane for each, and in the j-th word the steps of the flow that the j-th step of each
// plan conflicts with.
ghost use Rattle.std.specs.Prelude.{◌≡◌, ℕ, ◌+◌, ◌-◌, ◌*◌, ◌<◌, ◌≤◌, ◌&&◌, length, nat_lt, slice_index};
ghost use Rattle.trade.specs.Limits.{record_bytes, most_flows, most_nodes, most_steps, most_id};
ghost use Rattle.plans.specs.Plan.{steps_in};
ghost use Rattle.pairs.specs.Columns.{Narrow};
ghost use Rattle.sections.specs.Formed.{plan_start, plan_at};
ghost use Rattle.figures.specs.Figures.{Asked};
ghost use Rattle.figures.specs.Rises.{lane_at};
ghost use Rattle.figures.specs.Lanes.{LaidAt, Grouped, ReadOut};

use crate::rises::{Rises, taken};
use pairs::columns::marks_of;
use plans::steps::{plan_part, step_at, step_count};
use sections::records::len_at;

// The flows that have been laid: up to which, where the steps of the next begin, the ends of the lanes, and the most steps of a plan.
#[derive(Clone, Copy)]
pub(crate) struct Group {
    pub next: usize,
    pub start: usize,
    pub ends: u64,
    pub longest: usize,
}

// A plan laid at a place of the words; how many steps it has.
fn lay(columns: &[u64], h: &[u8], at: usize, words: &mut [u64]) -> usize
    requires { (most_nodes ≤ length columns.now) × Asked h.now × (most_steps ≤ length words.old) × (at < 64) }
    ensures { (result ≡ steps_in h.now) × ((n : ℕ) → n ≤ most_steps → Narrow n columns.now → at + n < 64 → LaidAt columns.now n h.now at words.old words.new) }
{
    let len = step_count(h);
    for j in 0..len {
        let marks = marks_of(columns, step_at(h, j)) as u64;
        words[j] |= marks << at;
    }
    len
}

// Whether a flow is left, and room for one more lane.
fn has_room(h: usize, l: usize, at: usize, width: usize) -> bool
    requires { (at ≤ 64) × (width < 64) }
    ensures { result ≡ (nat_lt h l && nat_lt (at + width) 64) }
{
    h < l && at + width < 64
}

// As many of the flows from one on, up to l, as there is room for, laid into blank words.
pub(crate) fn lay_group(
    columns: &[u64],
    width: usize,
    records: &[u8],
    steps: &[u8],
    first: usize,
    start: usize,
    l: usize,
    words: &mut [u64],
) -> Group
    requires first_lt_l { (first < l) × (l < most_flows) × (record_bytes * l ≤ length records.now) × (most_nodes ≤ length columns.now) × (width ≤ most_steps) × Narrow width columns.now }
    requires start_value { (start ≡ plan_start records.now first) × (start ≤ most_id * first) × ((h : ℕ) → h < l → Asked (plan_at records.now steps.now h)) }
    requires words_len { (length words.old ≡ most_steps) × ((j : ℕ) → slice_index words.old j ≡ 0) }
    ensures { Grouped columns.now width records.now steps.now first l result words.new }
{
    let mut laid = Group {
        next: first,
        start,
        ends: 0,
        longest: 0,
    };
    let mut at = 0;
    // A `for` over the flows would have to break on the same test, and to keep the lane's place beside it.
    while has_room(laid.next, l, at, width) {
        let len = len_at(records, laid.next);
        let count = lay(columns, plan_part(steps, laid.start, len), at, words);
        laid = Group {
            next: laid.next + 1,
            start: laid.start + len,
            ends: laid.ends | (1 << (at + width)),
            longest: laid.longest.max(count),
        };
        at += width + 1;
    }
    laid
}

// What has been taken at the ends of the lanes, written as the figures of the flows from one up to another.
pub(crate) fn read_out(line: Rises, width: usize, first: usize, until: usize, figures: &mut [u32])
    requires { (first ≤ until) × (until ≤ length figures.old) × (until ≤ most_flows) × (width < 64) × (lane_at width (until - first) ≤ 64) }
    ensures { ReadOut line width first until figures.old figures.new }
{
    let mut end = width;
    for figure in &mut figures[first..until] {
        *figure = taken(line, end);
        end += width + 1;
    }
}

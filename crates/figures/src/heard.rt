// The interference of the flows of a book: who is heard by whom is gathered once, and with it the figures of any flow are worked out by the
// columns of its plan.
ghost use Rattle.std.specs.Prelude.{◌≡◌, ℕ, ◌≤◌, ◌<◌, length, slice_index};
ghost use Rattle.trade.specs.Limits.{most_nodes};
ghost use Rattle.figures.specs.Figures.{HeardIn, AllHeard};

use crate::figures::figures_by;
use crate::lanes::lay_group;
use crate::rises::{taken, worked_out};
use pairs::columns::{gather, hear, nodes_in};
use plans::single::single;
use plans::steps::plan_part;
use sections::parts::Parts;
use sections::records::steps_before;
use trade::{Flow, Node, Plan};

// The parts of a book, and for each node those that disturb it, of the nodes of the flows that stand above another.
#[derive(Clone, Copy)]
pub struct Heard<'a> {
    pub parts: Parts<'a>,
    pub heard: &'a [u64],
    pub ghost size: { most_nodes ≤ length heard.now },
    pub ghost all: { (l : ℕ) → l < parts.flows → AllHeard l parts.rows.now parts.records.now parts.steps.now heard.now },
}

// For each node, those that disturb it, of the nodes of the flows that stand above another, put into a blank table.
pub fn hear_above(parts: Parts, heard: &mut [u64])
    requires { (length heard.old ≡ most_nodes) × ((y : ℕ) → y < most_nodes → slice_index heard.old y ≡ 0) }
    ensures { HeardIn parts.entry.flows parts.entry.rows.now parts.entry.records.now parts.entry.steps.now heard.new }
{
    if 1 < parts.flows {
        let nodes = nodes_in(parts.steps, steps_before(parts.records, parts.flows - 1));
        hear(parts.rows, nodes, heard);
    }
}

impl<'a> Heard<'a> {
    ghost use Rattle.trade.specs.Limits.{most_flows};
    ghost use Rattle.trade.specs.First.{list_to};
    ghost use Rattle.trade.specs.Bytes.{padded};
    ghost use Rattle.trade.specs.Facts.{facts_in};
    ghost use Rattle.trade.specs.Interference.{interference};
    ghost use Rattle.figures.specs.Figures.{Weighs};

    // Gathered into a blank table.
    pub fn of(parts: Parts<'a>, table: &'a mut [u64]) -> Heard<'a>
        requires { (length table.old ≡ most_nodes) × ((y : ℕ) → y < most_nodes → slice_index table.old y ≡ 0) }
        ensures parts { result.parts ≡ parts.entry }
        ensures heard { HeardIn parts.entry.flows parts.entry.rows.now parts.entry.records.now parts.entry.steps.now result.heard.now }
    {
        hear_above(parts, table);
        Heard {
            parts,
            heard: table,
        }
    }

    // The columns of the plan of l, with its repeated steps once, gathered into blank ones; how many steps it then has.
    fn columns_at(self, l: usize, columns: &mut [u64]) -> usize
        requires below { l < self.parts.flows }
        requires columns_len { (length columns.old ≡ most_nodes) × ((x : ℕ) → x < most_nodes → slice_index columns.old x ≡ 0) }
        ensures { Weighs self.entry.parts.rows.now self.entry.parts.records.now self.entry.parts.steps.now l result columns.new }
    {
        let mut once = [0u8; Plan::MOST * Plan::STEP_BYTES];
        let width = single(self.parts.plan(l), &mut once);
        gather(
            self.parts.rows,
            self.heard,
            plan_part(&once, 0, width),
            columns,
        );
        width
    }

    // The interference of each flow above l on it, zeros elsewhere. The first flow has none above it.
    pub fn figures_at(self, l: usize) -> [u32; Flow::MOST]
        requires { l < self.parts.flows }
        ensures { result ≡ padded most_flows (list_to (interference (facts_in 0 0 self.entry.parts.rows.now self.entry.parts.records.now self.entry.parts.steps.now) l) l) }
    {
        if l == 0 {
            return [0; Flow::MOST];
        }
        let mut columns = [0u64; Node::MOST];
        let width = self.columns_at(l, &mut columns);
        figures_by(&columns, width, self.parts.records, self.parts.steps, l)
    }

    // The interference of one flow above l on it.
    pub fn figure_at(self, l: usize, h: usize) -> u32
        requires { (h < l) × (l < self.parts.flows) }
        ensures { result ≡ interference (facts_in 0 0 self.entry.parts.rows.now self.entry.parts.records.now self.entry.parts.steps.now) l h }
    {
        let parts = self.parts;
        let mut columns = [0u64; Node::MOST];
        let width = self.columns_at(l, &mut columns);
        let start = steps_before(parts.records, h);
        let mut words = [0u64; Plan::MOST];
        let laid = lay_group(
            &columns,
            width,
            parts.records,
            parts.steps,
            h,
            start,
            h + 1,
            &mut words,
        );
        let line = worked_out(&words, laid.longest, laid.ends);
        taken(line, width)
    }
}

// The figures of a table carried over a change: those of two flows that stay go with them, and only a newcomer's with each other flow are
// worked out. They are changed where they lie: a line is read before another is put in its place.
ghost use Rattle.std.specs.Prelude.{◌≡◌, ℕ, ◌+◌, ◌≤◌, ◌<◌, length, get_or};
ghost use Rattle.trade.specs.Limits.{most_flows};
ghost use Rattle.trade.specs.First.{list_to};
ghost use Rattle.trade.specs.Bytes.{padded};
ghost use Rattle.trade.specs.Facts.{facts_in};
ghost use Rattle.trade.specs.Exchange.{before_out};
ghost use Rattle.trade.specs.Kept.{figures_room, figure_in};
ghost use Rattle.square.specs.Carried.{pairs_of, figure_with, with_figures, without_figures};

use crate::kept::{clear_from, line_from, put_line};
use figures::heard::Heard;
use sections::parts::Parts;
use trade::{Flow, Node};

// The figures of the flow at a place with each other flow: those of the flows above it, and what it costs each flow below it.
pub fn pairs_at(parts: Parts, place: usize) -> [u32; Flow::MOST]
    requires { place < parts.flows }
    ensures { result ≡ pairs_of parts.entry.flows (facts_in 0 0 parts.entry.rows.now parts.entry.records.now parts.entry.steps.now) place }
{
    let mut room = [0u64; Node::MOST];
    let heard = Heard::of(parts, &mut room);
    let mut pairs = heard.figures_at(place);
    for l in place + 1..parts.flows {
        pairs[l] = heard.figure_at(l, place);
    }
    pairs
}

// The first so many of a flow's pairs, and zeros behind them.
fn front(pairs: &[u32; Flow::MOST], count: usize) -> [u32; Flow::MOST]
    requires { count ≤ most_flows }
    ensures { result ≡ padded most_flows (list_to (λ h. get_or pairs.now h 0) count) }
{
    let mut line = [0u32; Flow::MOST];
    line[..count].copy_from_slice(&pairs[..count]);
    line
}

// The figures of flow l where a flow has come in at a place, from its pairs and the figures of before.
pub fn line_with(
    place: usize,
    pairs: &[u32; Flow::MOST],
    figures: &[u8],
    l: usize,
) -> [u32; Flow::MOST]
    requires { (length figures.now ≡ figures_room) × (l < most_flows) }
    ensures { result ≡ padded most_flows (list_to (figure_with place pairs.now figures.now l) l) }
{
    if l < place {
        return line_from(figures, l, l, Flow::MOST, 0, 0);
    }
    if l == place {
        return front(pairs, l);
    }
    let mut line = line_from(figures, l - 1, l, place + 1, 0, 1);
    line[place] = pairs[l];
    line
}

// The figures of all flows where one has come in at a place, and every other zero: from the last line up, since each comes from its own
// place or the one above.
pub fn figures_in(flows: usize, place: usize, pairs: &[u32; Flow::MOST], figures: &mut [u8])
    requires { (length figures.old ≡ figures_room) × ((i : ℕ) → get_or pairs.now i 0 < 256) }
    ensures { figures.new ≡ with_figures flows place pairs.now figures.old }
{
    // A table has no line past its last, however many flows there are.
    let used = flows.min(Flow::MOST);
    for l in (0..used).rev() {
        let line = line_with(place, pairs, figures, l);
        put_line(figures, l, &line);
    }
    clear_from(figures, used);
}

// The figures of flow l where the one at a place has gone, from those of before.
fn line_without(place: usize, figures: &[u8], l: usize) -> [u32; Flow::MOST]
    requires { (length figures.now ≡ figures_room) × (l + 1 < most_flows) }
    ensures { result ≡ padded most_flows (list_to (λ h. figure_in figures.now (before_out place l) (before_out place h)) l) }
{
    if l < place {
        return line_from(figures, l, l, Flow::MOST, 0, 0);
    }
    line_from(figures, l + 1, l, place, 1, 0)
}

// The figures of all flows that are left where the one at a place has gone, and every other zero: from the first line down, since each comes
// from its own place or the one below.
pub fn figures_out(flows: usize, place: usize, figures: &mut [u8])
    requires { (flows < most_flows) × (length figures.old ≡ figures_room) }
    ensures { figures.new ≡ without_figures flows place figures.old }
{
    for l in 0..flows {
        let line = line_without(place, figures, l);
        put_line(figures, l, &line);
    }
    clear_from(figures, flows);
}

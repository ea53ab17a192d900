// The figures that a table carries: 32 lines of 32, a byte each; I(l,h) is the h-th of line l. They are lent as a slice whose length each
// contract asks for, since an array would ask more of a caller.
ghost use Rattle.std.specs.Prelude.{◌≡◌, not, ℕ, ◌+◌, ◌≤◌, ◌<◌, eqb, length, get_or};
ghost use Rattle.trade.specs.Limits.{most_flows};
ghost use Rattle.trade.specs.First.{some};
ghost use Rattle.trade.specs.Layout.{sections};
ghost use Rattle.trade.specs.Facts.{facts_in};
ghost use Rattle.trade.specs.Kept.{figures_room, figure_in, figures_of, code17};
ghost use Rattle.trade.specs.Refusals.{tested};
ghost use Rattle.square.specs.Carried.{shifted, line_from, LinePut, Cleared};

use figures::heard::Heard;
use sections::parts::Parts;
use trade::{Flow, Node, Refusal};

// The figures of a table as they lie: line behind line.
pub type Figures = [u8; Flow::MOST * Flow::MOST];

// A place below the cut as it is, any other so many places ahead and then back.
fn shift(h: usize, cut: usize, ahead: usize, back: usize) -> usize
    requires { (h + ahead < most_flows) × (back ≤ cut) }
    ensures { result ≡ shifted cut ahead back h }
{
    if h < cut {
        return h;
    }
    h + ahead - back
}

// The first so many figures of a line, read from their places, and zeros behind them. A cut at `Flow::MOST` leaves every place as it is: a
// function for that alone would be this loop again.
pub fn line_from(
    figures: &[u8],
    line: usize,
    count: usize,
    cut: usize,
    ahead: usize,
    back: usize,
) -> [u32; Flow::MOST]
    requires { (length figures.now ≡ figures_room) × (line < most_flows) × (count + ahead ≤ most_flows) × (back ≤ cut) }
    ensures { result ≡ line_from figures.now line count cut ahead back }
{
    let mut read = [0u32; Flow::MOST];
    for h in 0..count {
        read[h] = figures[Flow::MOST * line + shift(h, cut, ahead, back)] as u32;
    }
    read
}

// A line put in its place.
pub fn put_line(figures: &mut [u8], l: usize, line: &[u32; Flow::MOST])
    requires { (length figures.old ≡ figures_room) × (l < most_flows) × ((h : ℕ) → h < most_flows → get_or line.now h 0 < 256) }
    ensures { LinePut l line.now figures.old figures.new }
{
    for (h, figure) in line.iter().enumerate() {
        figures[Flow::MOST * l + h] = *figure as u8;
    }
}

// Zeros put in every line from one on.
pub(crate) fn clear_from(figures: &mut [u8], l: usize)
    requires { (length figures.old ≡ figures_room) × (l ≤ most_flows) }
    ensures { Cleared l figures.old figures.new }
{
    figures[Flow::MOST * l..].fill(0);
}

// The figures of all flows, and every other zero.
pub fn keep(parts: Parts, figures: &mut [u8])
    requires { length figures.old ≡ figures_room }
    ensures { figures.new ≡ figures_of (facts_in 0 parts.entry.flows parts.entry.rows.now parts.entry.records.now parts.entry.steps.now) }
{
    let mut room = [0u64; Node::MOST];
    let heard = Heard::of(parts, &mut room);
    for l in 0..parts.flows {
        put_line(figures, l, &heard.figures_at(l));
    }
    clear_from(figures, parts.flows);
}

// Whether the figures of line l that are asked for, those of the flows above it, are these.
fn is_line(figures: &[u8], l: usize, line: &[u32; Flow::MOST]) -> bool
    requires { (length figures.now ≡ figures_room) × (l < most_flows) }
    ensures { result ≡ not (some (λ h. not (eqb (figure_in figures.now l h) (get_or line.now h 0))) l) }
{
    figures[Flow::MOST * l..]
        .iter()
        .zip(&line[..l])
        .all(|(kept, figure)| u32::from(*kept) == *figure)
}

// Code 17: a figure of a flow and one above it is wrong; the first such flow.
pub fn kept_answer(parts: Parts, figures: &[u8]) -> Result<(), Refusal>
    requires { length figures.now ≡ figures_room }
    ensures { tested result ≡ code17 (record {
      sections = sections 0 parts.entry.flows parts.entry.rows.now parts.entry.records.now parts.entry.steps.now;
      figures = figures.now;
    }) }
{
    let mut room = [0u64; Node::MOST];
    let heard = Heard::of(parts, &mut room);
    for l in 0..parts.flows {
        if !is_line(figures, l, &heard.figures_at(l)) {
            return Err(Refusal::BadFigure(l));
        }
    }
    Ok(())
}

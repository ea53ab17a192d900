// Costs that are worked out: the interference of the flows of a book.
use crate::costs::Costs;
use figures::heard::Heard;
use trade::Flow;

impl<'a> Costs for Heard<'a> {
    ghost use Rattle.std.specs.Prelude.{◌<◌};
    ghost use Rattle.trade.specs.Facts.{facts_in};
    ghost use Rattle.trade.specs.Interference.{interference};

    ghost cost = { λ s. interference (facts_in 0 0 s.parts.rows.now s.parts.records.now s.parts.steps.now) };

    ghost can_tell = { λ s l. l < s.parts.flows };

    fn line(&self, l: usize) -> [u32; Flow::MOST] {
        self.figures_at(l)
    }
}

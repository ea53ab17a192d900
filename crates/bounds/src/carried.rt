// Costs that a table carries: its figures, and with them those of a flow that has come in.
ghost use Rattle.std.specs.Prelude.{◌≡◌, ℕ, ◌<◌, length, get_or};
ghost use Rattle.trade.specs.Kept.{figures_room};

use crate::costs::Costs;
use square::carried::line_with;
use square::kept::line_from;
use trade::Flow;

// The newcomer's place and its pairs, and the figures of before.
#[derive(Clone, Copy)]
pub(crate) struct Carried<'a> {
    pub place: usize,
    pub pairs: &'a [u32; Flow::MOST],
    pub figures: &'a [u8],
    pub ghost room: { length figures.now ≡ figures_room },
    pub ghost small: { (i : ℕ) → get_or pairs.now i 0 < 256 },
    pub ghost bytes: { (i : ℕ) → get_or figures.now i 0 < 256 },
}

impl<'a> Costs for Carried<'a> {
    ghost use Rattle.trade.specs.Limits.{most_flows};
    ghost use Rattle.square.specs.Carried.{figure_with};

    ghost cost = { λ s. figure_with s.place s.pairs.now s.figures.now };

    ghost can_tell = { λ s l. l < most_flows };

    fn line(&self, l: usize) -> [u32; Flow::MOST] {
        line_with(self.place, self.pairs, self.figures, l)
    }
}

// The figures alone, as they stand.
#[derive(Clone, Copy)]
pub(crate) struct Kept<'a> {
    pub figures: &'a [u8],
    pub ghost room: { length figures.now ≡ figures_room },
    pub ghost bytes: { (i : ℕ) → get_or figures.now i 0 < 256 },
}

impl<'a> Costs for Kept<'a> {
    ghost use Rattle.trade.specs.Limits.{most_flows};
    ghost use Rattle.trade.specs.Kept.{figure_in};

    ghost cost = { λ s. figure_in s.figures.now };

    ghost can_tell = { λ s l. l < most_flows };

    fn line(&self, l: usize) -> [u32; Flow::MOST] {
        line_from(self.figures, l, l, Flow::MOST, 0, 0)
    }
}

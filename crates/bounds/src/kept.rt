// The response bounds of the flows of a table, by the figures that it carries; and of one into which a flow comes, by those and the newcomer's.
ghost use Rattle.std.specs.Prelude.{◌≡◌, [], ℕ, ◌≤◌, ◌<◌, length, get_or};
ghost use Rattle.trade.specs.Facts.{facts_in};
ghost use Rattle.trade.specs.Bound.{fairly};
ghost use Rattle.trade.specs.Kept.{figures_room, figure_in};
ghost use Rattle.square.specs.Carried.{figure_with};
ghost use Rattle.bounds.specs.Bounds.{Timed, checked_by, bounded_in};

use crate::bounds::{Bounds, bounds_by};
use crate::carried::{Carried, Kept};
use trade::{Flow, Refusal};

// The bounds of all flows where one has come in at a place, by its pairs and the figures of before as they stand, or code 9 at the first flow
// that has none.
pub fn bounds_with(
    flows: usize,
    records: &[u8],
    place: usize,
    pairs: &[u32; Flow::MOST],
    figures: &[u8],
) -> Result<Bounds, Refusal>
    requires { Timed flows records.now × (length figures.now ≡ figures_room) × ((i : ℕ) → get_or pairs.now i 0 < 256) }
    ensures { checked_by result ≡ bounded_in (facts_in 0 flows [] records.now []) (fairly (facts_in 0 flows [] records.now []) (figure_with place pairs.now figures.now)) }
{
    bounds_by(
        flows,
        records,
        &Carried {
            place,
            pairs,
            figures,
        },
    )
}

// The same by the figures alone: no flow comes in.
pub fn bounds_kept(flows: usize, records: &[u8], figures: &[u8]) -> Result<Bounds, Refusal>
    requires { Timed flows records.now × (length figures.now ≡ figures_room) }
    ensures { checked_by result ≡ bounded_in (facts_in 0 flows [] records.now []) (fairly (facts_in 0 flows [] records.now []) (figure_in figures.now)) }
{
    bounds_by(flows, records, &Kept { figures })
}

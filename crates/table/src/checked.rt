// The check of a table: codes 3, 5, 6 and 8, then 9 by the figures that it carries, and the bounds.
ghost use Rattle.table.specs.Table.{kept_in, ChecksKept};
ghost use Rattle.bounds.specs.Bounds.{checked_by};

use crate::table::Table;
use bounds::bounds::{Bounds, Checked};
use bounds::kept::bounds_kept;
use trade::Refusal;

// The bounds of a table's flows, or why it has none.
fn bounds_in(t: &Table) -> Result<Bounds, Refusal>
    ensures { ChecksKept (kept_in t.now) (checked_by result) }
{
    let parts = t.parts()?;
    bounds_kept(parts.flows, parts.records, &t.figures)
}

// CHECK a table. Its figures count as they stand: that they are right is asked by add and remove, and not here.
pub fn check_table(t: Table) -> Checked
    ensures { ChecksKept (kept_in t) result }
{
    bounds_in(&t).into()
}

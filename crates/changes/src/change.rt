// Adding a flow to a table at a place, and removing one. The rules are tested in their order: on the old table, on the place, on the new
// table. The old table is handed back where one of them refuses. A change is made in one copy of the table: each further move by value
// would be another on the stack.
ghost use Rattle.changes.specs.Change.{Adds, Removes};
ghost use Rattle.table.specs.Table.{kept_in};

use crate::entering::enter;
use crate::leaving::leave;
use table::table::Table;
use trade::{Answer, Flow, Plan};

// What a change answers, and the table after it. Not a Result, since `Adds` and `Removes` promise the old table on a refusal.
#[derive(Clone, Copy)]
pub struct Changed {
    pub answer: Answer,
    pub table: Table,
}

// ADD a flow at a place: codes 3, 5, 6, 8 and 17 on the old table, 14, 15, then 6 and 8 and 9 on the new one. Refused, the table as
// handed in.
pub fn add(t: Table, place: usize, flow: Flow, plan: [u8; Plan::MOST * Plan::STEP_BYTES]) -> Changed
    ensures { Adds (record { table = kept_in t; place = place; flow = flow; plan = plan }) result }
{
    let mut table = t;
    let answer = enter(&mut table, place, flow, plan).into();
    Changed { answer, table }
}

// REMOVE the flow at a place: codes 3, 5, 6, 8 and 17, then 15. Refused, the table as handed in.
pub fn remove(t: Table, place: usize) -> Changed
    ensures { Removes (record { table = kept_in t; place = place }) result }
{
    let mut table = t;
    let answer = leave(&mut table, place).into();
    Changed { answer, table }
}

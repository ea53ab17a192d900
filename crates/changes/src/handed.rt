// The table that a change is handed.
ghost use Rattle.std.specs.Prelude.{◌≡◌};
ghost use Rattle.trade.specs.Answers.{first_of, no_number};
ghost use Rattle.trade.specs.Calls.{old_rules};
ghost use Rattle.trade.specs.Refusals.{tested};
ghost use Rattle.table.specs.Table.{kept_in};

use rules::rules::old_answer;
use table::table::Table;
use trade::Refusal;

// Codes 3, 5, 6, 8 and 17.
pub(crate) fn whole(table: &Table) -> Result<(), Refusal>
    ensures { tested result ≡ first_of old_rules no_number (kept_in table.now) }
{
    old_answer(
        table.nodes as usize,
        table.flows as usize,
        &table.rows,
        &table.records,
        &table.steps,
        &table.figures,
    )
}

// The run area: the run that it holds, read and written.
ghost use Rattle.std.specs.Prelude.{◌≡◌, ◌≤◌, length};
ghost use Rattle.trade.specs.Limits.{area_bytes, most_flows};
ghost use Rattle.trade.specs.Bytes.{over};
ghost use Rattle.trade.specs.Area.{area_of};
ghost use Rattle.slot.specs.States.{state_of};
ghost use Rattle.area.specs.Area.{HeldIn};

use numbers::numbers::{long_at, put_long};
use trade::{Flow, Progress, Run, Slot, Step};

// The run that an area holds.
pub fn read_run(area: &[u8]) -> Run
    requires { area_bytes ≤ length area.now }
    ensures { HeldIn area.now result }
{
    let mut flows = [Progress { done: Step(0) }; Flow::MOST];
    for (i, flow) in flows.iter_mut().enumerate() {
        flow.done = Step(area[Run::SLOT_BYTES + i]);
    }
    Run {
        slot: Slot(long_at(area, 0)),
        flows,
    }
}

// A run written into the front of an area. The bytes past it stay.
pub fn write_run(area: &mut [u8], run: Run)
    requires { area_bytes ≤ length area.old }
    ensures { area.new ≡ over (area_of most_flows (state_of run)) area.old }
{
    put_long(area, 0, run.slot.0);
    for (i, flow) in run.flows.iter().enumerate() {
        area[Run::SLOT_BYTES + i] = flow.done.0;
    }
}

// Releases: instance v of a flow is released at its first release + v × P.
ghost use Rattle.std.specs.Prelude.{◌≡◌, ◌<◌};
ghost use Rattle.slot.specs.Release.{released_at, instance_by};

use trade::{Instance, Slot};

// Whether an instance is released in a slot.
pub fn is_released(first: Slot, period: u16, slot: Slot) -> bool
    requires { 0 < period }
    ensures { result ≡ released_at first.0 period slot.0 }
{
    first <= slot && (slot.0 - first.0) % (period as u32) == 0
}

// The latest instance that is released by a slot; 0 before the first.
pub(crate) fn instance_at(first: Slot, period: u16, slot: Slot) -> Instance
    requires { 0 < period }
    ensures { result.0 ≡ instance_by first.0 period slot.0 }
{
    if slot < first {
        return Instance(0);
    }
    Instance((slot.0 - first.0) / (period as u32))
}

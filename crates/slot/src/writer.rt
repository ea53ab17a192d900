// The grant writer.
ghost use Rattle.std.specs.Prelude.{◌≡◌, ◌≤◌, length};
ghost use Rattle.trade.specs.Limits.{grant_bytes};
ghost use Rattle.trade.specs.Bytes.{over};
ghost use Rattle.slot.specs.States.{bytes_of};

use numbers::numbers::{put_long, put_word};
use trade::Grant;

// A grant in the nine bytes that a part of the lent buffer starts with: id, instance, step, sender, receiver.
pub fn write_grant(part: &mut [u8], g: Grant)
    requires { grant_bytes ≤ length part.old }
    ensures { part.new ≡ over (bytes_of g) part.old }
{
    put_word(part, 0, g.id);
    put_long(part, 2, g.instance.0);
    part[6] = g.step.0;
    part[7] = g.transmission.sender.0;
    part[8] = g.transmission.receiver.0;
}

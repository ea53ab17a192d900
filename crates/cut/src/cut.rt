// Bytes in use at the front of a section: others put in among them and taken out again, in place, and zeros behind them.
ghost use Rattle.std.specs.Prelude.{◌≡◌, [], ◌++◌, ◌+◌, ◌*◌, ◌≤◌, length, take};
ghost use Rattle.trade.specs.Limits.{most_steps, step_bytes};
ghost use Rattle.trade.specs.Bytes.{part, padded, over};
ghost use Rattle.trade.specs.Exchange.{spliced};
ghost use Rattle.numbers.specs.Pasting.{pasted_at};
ghost use Rattle.cut.specs.Turned.{turned};

// The bytes from one place up to a second change about with those from there up to a third: each of the two parts is reversed, and
// then both together. The slice's `rotate_left` was tried: it takes twice the time here, and kilobytes of stack.
pub fn turn(section: &mut [u8], from: usize, middle: usize, to: usize)
    requires { (from ≤ middle) × (middle ≤ to) × (to ≤ length section.old) }
    ensures { section.new ≡ turned from middle to section.old }
{
    section[from..middle].reverse();
    section[middle..to].reverse();
    section[from..to].reverse();
}

// Held bytes change about with as many of a section.
fn swap(section: &mut [u8], at: usize, held: &mut [u8])
    requires { (length held.old ≤ most_steps * step_bytes) × (at + length held.old ≤ length section.old) }
    ensures section_after { section.new ≡ pasted_at at held.old section.old }
    ensures held_after { held.new ≡ part at (length held.old) section.old }
{
    section[at..at + held.len()].swap_with_slice(held);
}

// The held bytes come in at a place of those in use, which end at another. What they come to stand over is held in their stead.
pub fn put_in(section: &mut [u8], at: usize, end: usize, held: &mut [u8])
    requires { (length held.old ≤ most_steps * step_bytes) × (at ≤ end) × (end + length held.old ≤ length section.old) }
    ensures section_after { section.new ≡ over (spliced at at held.old (take end section.old)) section.old }
    ensures held_after { held.new ≡ part end (length held.old) section.old }
{
    let size = held.len();
    swap(section, end, held);
    turn(section, at, end, end + size);
}

// As many bytes as are held go from a place of those in use, which then end at another, and the held ones stand there again. Those that went are
// held in their stead.
pub fn take_out(section: &mut [u8], at: usize, end: usize, held: &mut [u8])
    requires { (length held.old ≤ most_steps * step_bytes) × (at ≤ end) × (end + length held.old ≤ length section.old) }
    ensures section_after { section.new
        ≡ over (spliced at (at + length held.old) [] (take (end + length held.old) section.old) ++ held.old)
        section.old }
    ensures held_after { held.new ≡ part at (length held.old) section.old }
{
    let size = held.len();
    turn(section, at, at + size, end + size);
    swap(section, end, held);
}

// Zeros from a place on.
pub fn clear(section: &mut [u8], end: usize)
    requires { end ≤ length section.old }
    ensures { section.new ≡ padded (length section.old) (take end section.old) }
{
    section[end..].fill(0);
}

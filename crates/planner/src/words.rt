// The arguments of the program, and what they ask.
ghost use Rattle.std.specs.Prelude.{◌≤◌, length, IfSome};

use listing::listed::SLOTS;
use std::env::FillError;
use std::rt::Env;
use trade::Clock;

// Env puts an argument into a buffer; one that is longer than this is none that the program knows.
const LONGEST: usize = 16;

// The number of slots that a text spells, where the clock has so many. It is digits alone: parse by itself would take a sign too.
fn slots_in(text: &str) -> Option<u32> {
    if !text.bytes().all(|b| b.is_ascii_digit()) {
        return None;
    }
    text.parse().ok().filter(|n| *n <= Clock::END)
}

// An argument, put into a buffer; none where it is missing, longer than the buffer, or no text.
fn arg<'a>(rt: &impl Env, i: usize, buffer: &'a mut [u8]) -> Option<&'a str>
    ensures { IfSome result (λ text. length text.now ≤ length buffer.old) }
{
    let n = rt.arg(i, buffer).ok()?;
    str::from_utf8(&buffer[..n]).ok()
}

// Whether there is an argument at a place, however long.
fn is_given(rt: &impl Env, i: usize) -> bool {
    let mut buffer = [0u8; LONGEST];
    !matches!(rt.arg(i, &mut buffer), Err(FillError::NotPresent))
}

// For how many slots the arguments ask why each flow waits; none where they ask nothing that the program knows. They are the word, and a
// number behind it or none; the program's own name counts among them.
pub(crate) fn question(rt: &impl Env) -> Option<u32> {
    let mut buffer = [0u8; LONGEST];
    if arg(rt, 1, &mut buffer) != Some("why") {
        return None;
    }
    if !is_given(rt, 2) {
        return Some(SLOTS);
    }
    if is_given(rt, 3) {
        return None;
    }
    slots_in(arg(rt, 2, &mut buffer)?)
}

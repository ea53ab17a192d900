// What the planner tells people of the book on standard input. The first argument is a word that says what is asked:
//
//   why [SLOTS]   in each of so many slots from the first on, of each flow, why it waits, or that it does not
//
// Any other arguments get a line that says how the program is used.
#![tactic(auto)]

mod reasons;
mod words;

use listing::input::read_full;
use std::io;

// Only the bytes that fill the buffer count.
fn main(rt: HostRuntime) -> io::Result<()> {
    let Some(slots) = words::question(&rt) else {
        return println!(rt; "USAGE planner why [SLOTS] <BOOK");
    };
    let mut buffer = [0u8; 4096];
    let n = read_full(&mut rt.reader(), &mut buffer)?;
    reasons::tell(&rt, &buffer[..n], slots)
}

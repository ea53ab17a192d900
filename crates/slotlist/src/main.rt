// Lists the book on standard input.
#![tactic(auto)]

use listing::input::read_full;
use std::io;

// Only the bytes that fill the buffer count.
fn main(rt: HostRuntime) -> io::Result<()> {
    let mut buffer = [0u8; 4096];
    let n = read_full(&mut rt.reader(), &mut buffer)?;
    listing::listed::list(&rt, &buffer[..n])
}

// What a case prints behind its name.
use bounds::acceptance::check;
use std::io;

// All bounds, those of unused places too.
pub(crate) fn say_bounds(rt: &impl Print, book: &[u8]) -> io::Result<()> {
    for bound in check(book).bounds {
        print!(rt; " {bound}")?;
    }
    println!(rt)
}

// The last bytes of an area.
pub(crate) fn say_bytes(rt: &impl Print, area: &[u8], count: usize) -> io::Result<()> {
    for byte in &area[area.len().saturating_sub(count)..] {
        print!(rt; " {byte}")?;
    }
    println!(rt)
}

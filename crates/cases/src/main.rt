// Cases of the rules over the proved calls.
#![tactic(auto)]

mod books;
mod desk;
mod orders;
mod said;
mod words;

use desk::Desk;
use listing::input::read_full;
use orders::Order;
use std::io;

// The words of a case, one after the other. A word that is unknown is passed over.
fn run_words(rt: &impl Print, words: &[u8]) -> io::Result<()> {
    let mut desk = Desk::new();
    for word in words.split(|b| *b == b' ') {
        if let Ok(order) = Order::of(word) {
            desk.obey(rt, order)?;
        }
    }
    Ok(())
}

// Each line: its name, a colon, and words.
fn run_lines(rt: &impl Print, text: &[u8]) -> io::Result<()> {
    for line in text.split(|b| *b == b'\n') {
        if let Some(colon) = line.iter().position(|b| *b == b':') {
            rt.write_all(&line[..colon])?;
            run_words(rt, &line[colon + 1..])?;
        }
    }
    Ok(())
}

// Only the bytes that fill the buffer count, so it is no Vec.
fn main(rt: HostRuntime) -> io::Result<()> {
    let mut text = [0u8; 65536];
    let len = read_full(&mut rt.reader(), &mut text)?;
    run_lines(&rt, &text[..len])
}

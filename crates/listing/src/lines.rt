// The lines of the listing: a word or a number, then numbers with a space before each.
use numbers::numbers::{long_at, word_at};
use std::io;
use trade::{Answer, Flow, Grant, Slot};

// REFUSED code number
pub fn print_refusal(rt: &impl Print, answer: Answer) -> io::Result<()> {
    println!(rt; "REFUSED {answer}")
}

// BOOK n m
pub fn print_book(rt: &impl Print, nodes: usize, flows: usize) -> io::Result<()> {
    println!(rt; "BOOK {nodes} {flows}")
}

// BOUND id R D
pub(crate) fn print_bound(rt: &impl Print, flow: Flow, bound: u16) -> io::Result<()> {
    println!(rt; "BOUND {} {bound} {}", flow.id, flow.deadline)
}

// slot id instance step sender receiver, from the bytes of a grant
pub(crate) fn print_grant(
    rt: &impl Print,
    slot: Slot,
    grant: &[u8; Grant::BYTES],
) -> io::Result<()> {
    let id = word_at(grant, 0);
    let instance = long_at(grant, 2);
    let [.., step, sender, receiver] = *grant;
    println!(rt; "{} {id} {instance} {step} {sender} {receiver}", slot.0)
}

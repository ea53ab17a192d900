// Answers requests to read, write, add, remove and check, a book or a table, so that a program in another language can try the six calls on
// anything, and see the bounds, which the calls for C do not hand out.
//
// Requests stand one behind the other on standard input, and their answers on standard output; numbers are big-endian. A request
// is a byte for the call, and what the call is handed:
//
//   1  read            a slice
//   2  write           a table, then a buffer
//   3  add             a table, a place in eight bytes, the newcomer's record, and all step places of a plan
//   4  remove          a table, then a place in eight bytes
//   5  check           a slice
//   6  check a table   a table
//
// A slice or a buffer is its length in two bytes, then its bytes. A table is n, m and all bytes of its rows, its records, its steps and
// its figures, those of unused places too. An answer is the code in two bytes, the number in eight, then the table that the call returns;
// of write, the whole buffer; of check, of a slice or a table, the bounds of all flow places in two bytes each. The program ends at any
// other call, at a request that is cut short, which gets no answer, or after the most requests of a run.
#![tactic(auto)]

mod input;
mod output;

use bounds::acceptance::check;
use changes::change::{add, remove};
use input::{Call, ROOM, next_call, next_newcomer, next_part, next_place, next_table};
use output::{put_answer, put_checked, put_returned};
use std::io;
use std::io::{ErrorKind, Read};
use table::checked::check_table;
use table::table::read;
use table::written::write;

// So many requests are answered in a run.
const MOST: u64 = 1_000_000;

fn answer_write(rt: &impl Print, reader: &mut impl Read, room: &mut [u8; ROOM]) -> io::Result<()> {
    let table = next_table(reader)?;
    let buffer = next_part(reader, room)?;
    put_answer(rt, write(table, buffer).into())?;
    rt.write_all(buffer)
}

fn answer_add(rt: &impl Print, reader: &mut impl Read) -> io::Result<()> {
    let table = next_table(reader)?;
    let place = next_place(reader)?;
    let newcomer = next_newcomer(reader)?;
    let changed = add(table, place, newcomer.flow, newcomer.plan);
    put_returned(rt, changed.answer, changed.table)
}

fn answer_remove(rt: &impl Print, reader: &mut impl Read) -> io::Result<()> {
    let table = next_table(reader)?;
    let changed = remove(table, next_place(reader)?);
    put_returned(rt, changed.answer, changed.table)
}

// Takes what the call is handed, and answers.
fn answer(
    rt: &impl Print,
    reader: &mut impl Read,
    room: &mut [u8; ROOM],
    call: Call,
) -> io::Result<()> {
    match call {
        Call::Read => {
            let got = read(next_part(reader, room)?);
            put_returned(rt, got.answer, got.table)
        }
        Call::Write => answer_write(rt, reader, room),
        Call::Add => answer_add(rt, reader),
        Call::Remove => answer_remove(rt, reader),
        Call::Check => put_checked(rt, check(next_part(reader, room)?)),
        Call::CheckTable => put_checked(rt, check_table(next_table(reader)?)),
    }
}

// Request by request, until a byte is no call.
fn answer_all(rt: &impl Print, reader: &mut impl Read) -> io::Result<()> {
    let mut room = [0u8; ROOM];
    for _ in 0..MOST {
        let Ok(call) = next_call(reader)? else {
            break;
        };
        answer(rt, reader, &mut room, call)?;
    }
    Ok(())
}

// The input may end at any byte.
fn main(rt: HostRuntime) -> io::Result<()> {
    match answer_all(&rt, &mut rt.reader()) {
        Err(error) if error.kind() == ErrorKind::UnexpectedEof => Ok(()),
        answered => answered,
    }
}

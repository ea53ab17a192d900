// What a request hands over, taken from standard input; an error where the input ends too soon.
ghost use Rattle.std.specs.Prelude.{◌≤◌, length, IfOk};

use sections::records::record_at;
use std::io;
use std::io::Read;
use table::table::Table;
use trade::{Flow, Node, Plan};

// Room for the longest slice or buffer, whose length has two bytes.
pub(crate) const ROOM: usize = 65536;

#[derive(Clone, Copy)]
pub(crate) enum Call {
    Read,
    Write,
    Add,
    Remove,
    Check,
    CheckTable,
}

// No call has the number.
#[derive(Clone, Copy)]
pub(crate) struct NoCall;

impl TryFrom<u8> for Call {
    type Error = NoCall;

    fn try_from(number: u8) -> Result<Self, NoCall> {
        match number {
            1 => Ok(Call::Read),
            2 => Ok(Call::Write),
            3 => Ok(Call::Add),
            4 => Ok(Call::Remove),
            5 => Ok(Call::Check),
            6 => Ok(Call::CheckTable),
            _ => Err(NoCall),
        }
    }
}

#[derive(Drop)]
pub(crate) struct Newcomer {
    pub flow: Flow,
    pub plan: [u8; Plan::MOST * Plan::STEP_BYTES],
}

// The next bytes, as many as an array has.
fn next_bytes<const N: usize>(reader: &mut impl Read) -> io::Result<[u8; N]> {
    let mut bytes = [0u8; N];
    reader.read_exact(&mut bytes)?;
    Ok(bytes)
}

// The call, or that the next byte is of no call.
pub(crate) fn next_call(reader: &mut impl Read) -> io::Result<Result<Call, NoCall>> {
    let [number]: [u8; 1] = next_bytes(reader)?;
    Ok(Call::try_from(number))
}

// A slice or a buffer, put at the front of the room. Where the input can't be read, what has been put there by then stays.
pub(crate) fn next_part<'a>(
    reader: &mut impl Read,
    room: &'a mut [u8; ROOM],
) -> io::Result<&'a mut [u8]>
    ensures { IfOk result (λ part. length part.now ≤ length room.old) }
{
    let len = u16::from_be_bytes(next_bytes(reader)?);
    let part = &mut room[..usize::from(len)];
    reader.read_exact(part)?;
    Ok(part)
}

pub(crate) fn next_table(reader: &mut impl Read) -> io::Result<Table> {
    let [nodes, flows]: [u8; 2] = next_bytes(reader)?;
    Ok(Table {
        nodes,
        flows,
        rows: next_bytes(reader)?,
        records: next_bytes(reader)?,
        steps: next_bytes(reader)?,
        figures: next_bytes(reader)?,
    })
}

pub(crate) fn next_place(reader: &mut impl Read) -> io::Result<usize> {
    Ok(usize::from_be_bytes(next_bytes(reader)?))
}

pub(crate) fn next_newcomer(reader: &mut impl Read) -> io::Result<Newcomer> {
    let record: [u8; Flow::RECORD_BYTES] = next_bytes(reader)?;
    Ok(Newcomer {
        flow: record_at(&record, 0),
        plan: next_bytes(reader)?,
    })
}

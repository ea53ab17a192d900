// What the programs read.
ghost use Rattle.std.specs.Prelude.{◌≡◌, ◌<◌, take, length, IfOk};
ghost use Rattle.std.specs.Io.{ReadsAtMost};
ghost use Rattle.std.specs.Io.KnownBytes.{Consumes, IsAtEnd};

use std::io;
use std::io::Read;

// Reads until the buffer is full or the input ends, and returns how many bytes it put at the front of the buffer. Where the input can't be
// read, what has been put there by then stays.
//
// A loop of reads: `read_exact` does not say how much came before the end, and of what `io::copy` puts into a slice no contract speaks.
pub fn read_full<R: Read>(reader: &mut R, buffer: &mut [u8]) -> io::Result<usize>
    ensures counts { ReadsAtMost result buffer.new }
    ensures buffer_kept { length buffer.new ≡ length buffer.old }
    ensures consumed { IfOk result (λ n. Consumes (R.remaining reader.old) (R.remaining reader.new) (take n buffer.new)) }
    ensures to_the_end { IfOk result (λ n. n < length buffer.new → IsAtEnd (R.remaining reader.new)) }
{
    let mut done = 0;
    while done < buffer.len() {
        match reader.read(&mut buffer[done..])? {
            0 => break,
            n => done += n,
        }
    }
    Ok(done)
}

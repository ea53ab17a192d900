// Numbers of two and of four bytes in a slice, big-endian. A trait over both types would need for each of them the bodies that stand here.
ghost use Rattle.std.specs.Prelude.{◌≡◌, ◌+◌, ◌<◌, length};
ghost use Rattle.trade.specs.Bytes.{word, long, two_bytes, four_bytes};
ghost use Rattle.numbers.specs.Pasting.{pasted_at};

// So many numbers have two bytes: the higher two of four count this many times.
pub const WORDS: u32 = 65_536;

// The two bytes from a place on.
pub fn word_at(s: &[u8], at: usize) -> u16
    requires { at + 1 < length s.now }
    ensures { result ≡ word s.now at }
{
    u16::from_be_bytes([s[at], s[at + 1]])
}

// The four bytes from a place on.
pub fn long_at(s: &[u8], at: usize) -> u32
    requires { at + 3 < length s.now }
    ensures { result ≡ long s.now at }
{
    u32::from_be_bytes([s[at], s[at + 1], s[at + 2], s[at + 3]])
}

// A number put into the two bytes from a place on.
pub fn put_word(buffer: &mut [u8], at: usize, n: u16)
    requires { at + 1 < length buffer.old }
    ensures { buffer.new ≡ pasted_at at (two_bytes n) buffer.old }
{
    buffer[at..at + 2].copy_from_slice(&n.to_be_bytes());
}

// A number put into the four bytes from a place on.
pub fn put_long(buffer: &mut [u8], at: usize, n: u32)
    requires { at + 3 < length buffer.old }
    ensures { buffer.new ≡ pasted_at at (four_bytes n) buffer.old }
{
    buffer[at..at + 4].copy_from_slice(&n.to_be_bytes());
}

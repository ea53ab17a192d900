// Bytes put into a lent buffer.
ghost use Rattle.std.specs.Prelude.{◌≡◌, ◌+◌, ◌≤◌, length};
ghost use Rattle.numbers.specs.Pasting.{pasted_at};

// Bytes put into a buffer from a place on.
pub fn put_at(buffer: &mut [u8], at: usize, src: &[u8])
    requires { at + length src.now ≤ length buffer.old }
    ensures { buffer.new ≡ pasted_at at src.now buffer.old }
{
    buffer[at..at + src.len()].copy_from_slice(src);
}

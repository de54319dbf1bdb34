// Standard output by way of a buffer, whose first `at` bytes are not written yet. A function that puts bytes answers the next `at`. After a
// write that failed no more is written: `told` has the error.
ghost use Rattle.std.specs.Prelude.{◌≤◌};

use std::io;
use std::io::Stdout;

#[derive(Drop)]
pub struct Buffer {
    pub bytes: [u8; 65536],
    pub to: Stdout,
    pub told: io::Result<()>,
}

// Writes the first `at` bytes.
pub fn flush(out: &mut Buffer, at: usize)
    requires { at ≤ 65536 }
{
    if out.told.is_ok() {
        let bytes: &[u8] = &out.bytes;
        out.told = out.to.write_all(&bytes[..at]);
    }
}

// Puts a byte. A full buffer is written first.
pub fn put_byte(out: &mut Buffer, at: usize, b: u8) -> usize
    requires { at ≤ 65536 }
    ensures { result ≤ 65536 }
{
    if at < 65536 {
        out.bytes[at] = b;
        return at + 1;
    }
    flush(out, at);
    out.bytes[0] = b;
    1
}

pub fn put_text(out: &mut Buffer, at: usize, text: &[u8]) -> usize
    requires { at ≤ 65536 }
    ensures { result ≤ 65536 }
{
    let mut to = at;
    for b in text {
        to = put_byte(out, to, *b);
    }
    to
}

// The decimal digits of a number.
pub fn put_decimal(out: &mut Buffer, at: usize, n: u64) -> usize
    requires { at ≤ 65536 }
    ensures { result ≤ 65536 }
{
    let mut digits = itoa::Buffer::new();
    put_text(out, at, digits.format(n).as_bytes())
}

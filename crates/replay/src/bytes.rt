// Numbers in a case, the low byte first; what is past the end is 0.
ghost use Rattle.std.specs.Prelude.{◌<◌};

use read_header::part;

pub fn byte(s: &[u8], i: usize) -> u8 {
    if i < s.len() { s[i] } else { 0 }
}

pub fn word(s: &[u8], at: usize) -> usize
    ensures { result < 65536 }
{
    let two = part(s, at, 2);
    (byte(two, 0) as usize) + 256 * (byte(two, 1) as usize)
}

// A number of 16 bits in two's complement.
pub fn signed_word(s: &[u8], at: usize) -> i32 {
    (word(s, at) as u16).cast_signed() as i32
}

// Parts of a case.
use read_header::part;
use replay::bytes::byte;

// Red, green and blue as a number.
pub fn color(s: &[u8], at: usize) -> usize {
    let three = part(s, at, 3);
    65536 * (byte(three, 0) as usize) + 256 * (byte(three, 1) as usize) + (byte(three, 2) as usize)
}

// The extension, behind its length.
pub fn extension(case: &[u8]) -> &[u8] {
    part(case, 1, byte(case, 0) as usize)
}

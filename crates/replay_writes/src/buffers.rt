// The buffers of a list, and the one that is written to. Each byte of that has a mark before a call, so that a write shows.
ghost use Rattle.std.specs.Prelude.{◌≤◌, ◌<◌, length};

use replay::bytes::{byte, signed_word};
use replay::stays;

// The mark is another in a buffer a byte longer: a byte that is not written is not right in both.
fn mark_of(len: usize) -> u8 {
    (len % 256) as u8
}

pub fn mark(s: &mut [u8]) {
    let m = mark_of(s.len());
    s.fill(m);
}

// Whether the bytes from one on have their mark.
pub fn rest_stays(s: &[u8], from: usize) -> bool {
    stays(s, from, mark_of(s.len()))
}

// The first n commands of a list, five bytes each.
pub fn unpack(list: &[u8], n: usize, xs: &mut [i32], ys: &mut [i32], kinds: &mut [u8])
    requires n_bound { n < 65536 }
    requires n_in_bounds { (n ≤ length xs.old) × ((n ≤ length ys.old) × (n ≤ length kinds.old)) }
{
    for i in 0..n {
        let at = 5 * i;
        xs[i] = signed_word(list, at);
        ys[i] = signed_word(list, at + 2);
        kinds[i] = byte(list, at + 4);
    }
}

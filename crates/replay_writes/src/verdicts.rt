// Whether the port writes a case as the Rust did.
ghost use Rattle.std.specs.Prelude.{◌≡◌, ◌≤◌, length};
ghost use Rattle.replay_writes.specs.Room.{Roomy};

use super::buffers::{mark, rest_stays, unpack};
use super::bytes::{file_len, from_list, is_whole, list_len, name, packed, threads};
use read_header::part;
use replay::bytes::byte;
use replay::packbits::opens_to;
use replay::{Outcome, verdict};
use rules::{Refusal, Written};

// Formats are 0 to 5.
fn extension(format: u8) -> [u8; 3]
    ensures { 3 ≡ length result }
{
    match format {
        0 => *b"pes",
        1 => *b"pec",
        2 => *b"dst",
        3 => *b"exp",
        4 => *b"jef",
        _ => *b"vp3",
    }
}

// Writes the list of the case to a buffer that is marked first.
fn write(
    case: &[u8],
    xs: &[i32],
    ys: &[i32],
    kinds: &[u8],
    out: &mut [u8],
) -> Result<Written, Refusal> {
    mark(out);
    let ext = extension(byte(case, 0));
    stitch_box::write(&ext, name(case), xs, ys, kinds, threads(case), out)
}

// The file is that of the case, n bytes, and bytes behind it stay.
fn writes_same(case: &[u8], n: usize, xs: &[i32], ys: &[i32], kinds: &[u8], out: &mut [u8]) -> bool
    requires { n ≤ length out.old }
{
    let Ok(Written { len, .. }) = write(case, xs, ys, kinds, out) else {
        return false;
    };
    len == n && opens_to(packed(case), part(out, 0, n)) && rest_stays(out, n)
}

// A buffer too short is refused, and stays.
fn refuses(case: &[u8], xs: &[i32], ys: &[i32], kinds: &[u8], out: &mut [u8]) -> bool {
    let answer = write(case, xs, ys, kinds, out);
    matches!(answer, Err(Refusal::BufferTooShort)) && rest_stays(out, 0)
}

// Writes to a buffer as long as the file, to one a byte longer, and to one a byte shorter.
fn agrees(case: &[u8], xs: &[i32], ys: &[i32], kinds: &[u8], out: &mut [u8]) -> bool
    requires { 65536 ≡ length out.old }
{
    let n = file_len(case);
    if !writes_same(case, n, xs, ys, kinds, &mut out[..n]) {
        return false;
    }
    let longer = n + 1;
    if !writes_same(case, n, xs, ys, kinds, &mut out[..longer]) {
        return false;
    }
    if n == 0 {
        return true;
    }
    let shorter = n - 1;
    refuses(case, xs, ys, kinds, &mut out[..shorter])
}

// A case of another format is skipped.
pub fn judged(
    case: &[u8],
    xs: &mut [i32],
    ys: &mut [i32],
    kinds: &mut [u8],
    out: &mut [u8],
) -> Outcome
    requires { Roomy xs.old ys.old kinds.old out.old }
{
    if !is_whole(case) {
        return Outcome::Wrong;
    }
    if 5 < byte(case, 0) {
        return Outcome::Skipped;
    }
    let n = list_len(case);
    unpack(from_list(case), n, xs, ys, kinds);
    verdict(agrees(case, &xs[..n], &ys[..n], &kinds[..n], out))
}

// The bytes of all commands of a list in DST, EXP and JEF.
// A port of src/formats/dst.rs and src/formats/more.rs of zigzag, changed.
#![tactic(auto)]

pub mod pairs;
pub mod triples;

ghost use Rattle.std.specs.Prelude.{◌≡◌, false, ◌+◌, ◌≤◌, pos, length, take};
ghost use Rattle.rules.specs.Vocabulary.{pick, count};
ghost use Rattle.rules.specs.Lists.{commands, written};
ghost use Rattle.rules.specs.Refusals.{step_too_long};
ghost use Rattle.laws.specs.Buffers.{Puts};
ghost use Rattle.stream_cmd.specs.Cmds.{format_of, cmd_of, kind_in};

use crate::pairs::put_pairs;
use crate::triples::put_triples;
use formats::list_len;
use stream_cmd::Stream;

// 1 for a kind from lo to hi, and 0 for any other.
fn is_in(lo: u8, hi: u8, kind: u8) -> u16
    ensures { result ≡ pick (kind_in lo hi kind) 1 0 }
{
    if kind < lo {
        return 0;
    }
    (kind <= hi) as u16
}

// How many of the first n kinds are from lo to hi.
fn kinds_in(lo: u8, hi: u8, kinds: &[u8], n: usize) -> usize
    requires { (n ≤ length kinds.now) × (n ≤ 65535) }
    ensures { (result ≡ count (kind_in lo hi) (take n kinds.now)) × (result ≤ n) }
{
    let mut found: u16 = 0;
    for i in 0..n {
        found += is_in(lo, hi, kinds[i]);
    }
    found as usize
}

// The bytes that all commands take. Kind 0 is a stitch, 2 a trim, and 1 to 3 are the kinds that are neither stitch nor end.
pub fn stream_len(f: Stream, xs: &[i32], ys: &[i32], kinds: &[u8]) -> usize
    requires { length kinds.now ≤ 65535 }
    ensures { result ≡ length (written (cmd_of f) (pos 0) (pos 0) (commands xs.now ys.now kinds.now)) }
{
    let n = list_len(xs, ys, kinds);
    match f {
        Stream::Dst => 3 * n + 6 * kinds_in(2, 2, kinds, n),
        Stream::Exp => 2 * kinds_in(0, 0, kinds, n) + 4 * kinds_in(1, 3, kinds, n),
        Stream::Jef => 2 * n + 2 * kinds_in(1, 3, kinds, n) - 4 * kinds_in(2, 2, kinds, n),
    }
}

// The bytes of all commands, from `at` on.
pub fn put_stream(
    f: Stream,
    xs: &[i32],
    ys: &[i32],
    kinds: &[u8],
    out: &mut [u8],
    at: usize,
) -> usize
    requires kinds_value { step_too_long (format_of f) (commands xs.now ys.now kinds.now) ≡ false }
    requires kinds_in_bounds { at + length (written (cmd_of f) (pos 0) (pos 0) (commands xs.now ys.now kinds.now)) ≤ length out.old }
    ensures { Puts out at result (written (cmd_of f) (pos 0) (pos 0) (commands xs.now ys.now kinds.now)) }
{
    match f {
        Stream::Dst => put_triples(xs, ys, kinds, out, at),
        Stream::Exp => put_pairs(false, xs, ys, kinds, out, at),
        Stream::Jef => put_pairs(true, xs, ys, kinds, out, at),
    }
}

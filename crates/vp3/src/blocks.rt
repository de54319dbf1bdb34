// The colour blocks of a list: how many bytes their stitches take, and the blocks themselves.
// A port of src/formats/more.rs of zigzag, changed.
ghost use Rattle.std.specs.Prelude.{◌≡◌, false, [], ◌∷◌, ◌++◌, ◌+◌, ◌≤◌, pos, nat_abs, ◌-ℤ◌, length, drop};
ghost use Rattle.rules.specs.Lists.{commands, threads_of};
ghost use Rattle.rules.specs.Refusals.{place_outside};
ghost use Rattle.rules.specs.Thumbnails.{color_blocks};
ghost use Rattle.rules.specs.Vp3.{stitch_of, or_black, stitches_from, color_parts};
ghost use Rattle.laws.specs.Buffers.{Puts};
ghost use Rattle.vp3.specs.Heads.{Wide, NearWay, block_text};
ghost use Rattle.vp3.specs.Blocks.{Close, Left, Rest, between, end_of, Scanned, Known, Listed, ScannedAll};

use crate::heads::{Middle, Way, put_block_head};
use emit::put;
use formats::{are_stitches, list_len, op_of};
use geom::step;
use rules::Color;
use vp3_cmd::{cmd_len, last_stitch, put_cmd, put_stitch, stitch_len};

// The bytes of a block's stitches, and the place behind its last command.
#[derive(Clone, Copy)]
pub struct Scan {
    pub len: usize,
    pub end: usize,
}

// The bytes of all stitches, and how many blocks there are.
#[derive(Clone, Copy)]
pub struct Scans {
    pub len: usize,
    pub blocks: usize,
}

// The bytes of two stitches, from (x, y) to (nx, ny) and on to (mx, my).
fn two_len(x: i32, y: i32, nx: i32, ny: i32, mx: i32, my: i32) -> usize
    requires { Close x y × (Close nx ny × Close mx my) }
    ensures { (result ≡ length (stitch_of (nx -ℤ x) (ny -ℤ y)) + length (stitch_of (mx -ℤ nx) (my -ℤ ny))) × (result ≤ 16) }
{
    stitch_len(step(x, nx), step(y, ny)) + stitch_len(step(nx, mx), step(ny, my))
}

// The last command of a list, if it is left: a block of which `len` bytes are counted ends with it, or before it.
fn scan_last(xs: &[i32], ys: &[i32], kinds: &[u8], i: usize, px: i32, py: i32, len: usize) -> Scan
    requires { Left xs.now ys.now kinds.now i px py len }
    ensures { Rest xs.now ys.now kinds.now i px py len result }
{
    let n = list_len(xs, ys, kinds);
    if n <= i {
        return Scan { len, end: i };
    }
    if kinds[i] == 3 {
        return Scan { len, end: i };
    }
    let more = cmd_len(op_of(kinds[i]), step(px, xs[i]), step(py, ys[i]));
    Scan {
        len: len + more,
        end: i + 1,
    }
}

// The block from command `from` on, which starts at (x, y).
fn scan_block(xs: &[i32], ys: &[i32], kinds: &[u8], from: usize, x: i32, y: i32) -> Scan
    requires kinds_len_bound { (length kinds.now ≤ 65535) × (from ≤ length (commands xs.now ys.now kinds.now)) }
    requires kinds_value { place_outside (commands xs.now ys.now kinds.now) ≡ false }
    requires x_bound { (nat_abs x ≤ 16000) × (nat_abs y ≤ 16000) }
    ensures { Scanned (commands xs.now ys.now kinds.now) from x y result }
{
    let n = list_len(xs, ys, kinds);
    let mut px = x;
    let mut py = y;
    let mut len = 0;
    let mut i = from;
    // Kept as while: a turn goes on by one command or by two.
    while i + 1 < n {
        let j = i + 1;
        let nx = xs[i];
        let ny = ys[i];
        if are_stitches(kinds[i], kinds[j]) {
            let mx = xs[j];
            let my = ys[j];
            len += two_len(px, py, nx, ny, mx, my);
            px = mx;
            py = my;
            i = j + 1;
            continue;
        }
        if kinds[i] == 3 {
            return Scan { len, end: i };
        }
        let op = op_of(kinds[i]);
        len += cmd_len(op, step(px, nx), step(py, ny));
        px = last_stitch(op, px, nx);
        py = last_stitch(op, py, ny);
        i = j;
    }
    scan_last(xs, ys, kinds, i, px, py, len)
}

// Where a block from command `from` to before `end` ends, if it starts at z.
fn end_of(zs: &[i32], from: usize, end: usize, z: i32) -> i32
    requires { (from ≤ end) × (end ≤ length zs.now) }
    ensures { result ≡ end_of z (between zs.now from end) }
{
    if from < end {
        return zs[end - 1];
    }
    z
}

// All blocks: where each ends, and the bytes of its stitches.
pub fn scan_list(
    xs: &[i32],
    ys: &[i32],
    kinds: &[u8],
    ends: &mut [usize],
    lens: &mut [usize],
) -> Scans
    requires known { Known xs.now ys.now kinds.now }
    requires in_bounds { (256 ≤ length ends.old) × (256 ≤ length lens.old) }
    ensures { ScannedAll (commands xs.now ys.now kinds.now) ends.new lens.new result }
{
    let n = list_len(xs, ys, kinds);
    let mut x: i32 = 0;
    let mut y: i32 = 0;
    let mut total = 0;
    let mut k = 0;
    let mut from = 0;
    // Kept as while: each turn goes on by a whole block.
    while from <= n {
        let s = scan_block(xs, ys, kinds, from, x, y);
        ends[k] = s.end;
        lens[k] = s.len;
        total += s.len;
        x = end_of(xs, from, s.end, x);
        y = end_of(ys, from, s.end, y);
        k += 1;
        from = s.end + 1;
    }
    Scans {
        len: total,
        blocks: k,
    }
}

// Two stitches, from (x, y) to (nx, ny) and on to (mx, my).
fn put_two(x: i32, y: i32, nx: i32, ny: i32, mx: i32, my: i32, out: &mut [u8], at: usize) -> usize
    requires close { Close x y × (Close nx ny × Close mx my) }
    requires ny_in_bounds { at + (length (stitch_of (nx -ℤ x) (ny -ℤ y)) + length (stitch_of (mx -ℤ nx) (my -ℤ ny))) ≤ length out.old }
    ensures { Puts out at result (stitch_of (nx -ℤ x) (ny -ℤ y) ++ stitch_of (mx -ℤ nx) (my -ℤ ny)) }
{
    let second = put_stitch(step(x, nx), step(y, ny), out, at);
    put_stitch(step(nx, mx), step(ny, my), out, second)
}

// The stitches of the commands from `from` to before `end`, the first from (x, y).
fn put_stitches(
    xs: &[i32],
    ys: &[i32],
    kinds: &[u8],
    from: usize,
    end: usize,
    x: i32,
    y: i32,
    out: &mut [u8],
    at: usize,
) -> usize
    requires from_le_end { (from ≤ end) × (end ≤ length (commands xs.now ys.now kinds.now)) }
    requires kinds_value { place_outside (commands xs.now ys.now kinds.now) ≡ false }
    requires x_bound { (nat_abs x ≤ 16000) × (nat_abs y ≤ 16000) }
    requires end_in_bounds { at + length (stitches_from x y (between (commands xs.now ys.now kinds.now) from end)) ≤ length out.old }
    ensures { Puts out at result (stitches_from x y (between (commands xs.now ys.now kinds.now) from end)) }
{
    let mut px = x;
    let mut py = y;
    let mut to = at;
    let mut i = from;
    // Kept as while: a turn goes on by one command or by two.
    while i + 1 < end {
        let j = i + 1;
        let nx = xs[i];
        let ny = ys[i];
        if are_stitches(kinds[i], kinds[j]) {
            let mx = xs[j];
            let my = ys[j];
            to = put_two(px, py, nx, ny, mx, my, out, to);
            px = mx;
            py = my;
            i = j + 1;
            continue;
        }
        let op = op_of(kinds[i]);
        to = put_cmd(op, step(px, nx), step(py, ny), out, to);
        px = last_stitch(op, px, nx);
        py = last_stitch(op, py, ny);
        i = j;
    }
    if i < end {
        return put_cmd(op_of(kinds[i]), step(px, xs[i]), step(py, ys[i]), out, to);
    }
    to
}

// Thread k, black where there are too few.
fn thread(threads: &[u8], k: usize) -> Color
    requires { k ≤ 255 }
    ensures { result ≡ or_black (drop k (threads_of threads.now)) }
{
    if threads.len() < 3 * k + 3 {
        return Color(0, 0, 0);
    }
    Color(threads[3 * k], threads[3 * k + 1], threads[3 * k + 2])
}

// A colour block.
fn put_block(
    xs: &[i32],
    ys: &[i32],
    kinds: &[u8],
    from: usize,
    end: usize,
    m: Middle,
    w: Way,
    c: Color,
    out: &mut [u8],
    at: usize,
) -> usize
    requires from_le_end { (from ≤ end) × (end ≤ length (commands xs.now ys.now kinds.now)) }
    requires kinds_value { place_outside (commands xs.now ys.now kinds.now) ≡ false }
    requires wide { Wide m × NearWay w }
    requires end_in_bounds { at + (57 + length (stitches_from w.x w.y (between (commands xs.now ys.now kinds.now) from end))) ≤ length out.old }
    ensures { Puts out at result (block_text m w c ++ stitches_from w.x w.y (between (commands xs.now ys.now kinds.now) from end) ++ 0x00 ∷ []) }
{
    let stitches = put_block_head(m, w, c, out, at);
    let last = put_stitches(xs, ys, kinds, from, end, w.x, w.y, out, stitches);
    put(out, last, 0x00)
}

// All n colour blocks, by where each ends and the bytes of its stitches.
pub fn put_blocks(
    xs: &[i32],
    ys: &[i32],
    kinds: &[u8],
    threads: &[u8],
    m: Middle,
    n: usize,
    ends: &[usize],
    lens: &[usize],
    out: &mut [u8],
    at: usize,
) -> usize
    requires known { Known xs.now ys.now kinds.now × Wide m }
    requires listed { Listed (commands xs.now ys.now kinds.now) n ends.now lens.now }
    requires kinds_in_bounds { at + length (color_parts m.x m.y (pos 0) (pos 0) (threads_of threads.now) (color_blocks (commands xs.now ys.now kinds.now))) ≤ length out.old }
    ensures { Puts out at result (color_parts m.x m.y (pos 0) (pos 0) (threads_of threads.now) (color_blocks (commands xs.now ys.now kinds.now))) }
{
    let mut x: i32 = 0;
    let mut y: i32 = 0;
    let mut to = at;
    let mut from = 0;
    for k in 0..n {
        let end = ends[k];
        let to_x = end_of(xs, from, end, x);
        let to_y = end_of(ys, from, end, y);
        let w = Way {
            x,
            y,
            to_x,
            to_y,
            len: lens[k],
        };
        to = put_block(xs, ys, kinds, from, end, m, w, thread(threads, k), out, to);
        x = to_x;
        y = to_y;
        from = end + 1;
    }
    to
}

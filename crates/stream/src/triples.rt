// DST: the records of a list, two stitches in a row at once.
// A port of src/formats/dst.rs of zigzag, changed.
ghost use Rattle.std.specs.Prelude.{◌++◌, ◌+◌, ◌≤◌, ◌<◌, pos, ◌-ℤ◌, length};
ghost use Rattle.rules.specs.Lists.{commands, written};
ghost use Rattle.rules.specs.Dst.{dst_cmd};
ghost use Rattle.stream_cmd.specs.declared.Stream.TheVariants.{Dst};
ghost use Rattle.rules.specs.declared.Op.TheVariants.{Stitch};
ghost use Rattle.laws.specs.Buffers.{Puts};
ghost use Rattle.stream_cmd.specs.Cmds.{Step, Ready, StepAt, bytes_at, Tables};

use formats::{are_stitches, list_len, op_of};
use geom::step;
use stream_cmd::triples::{dst_cmd, put_move, table};

// Two stitches, from (x, y) to (nx, ny) and on to (mx, my).
fn put_two(
    x: i32,
    y: i32,
    nx: i32,
    ny: i32,
    mx: i32,
    my: i32,
    wide: &[u32],
    high: &[u32],
    out: &mut [u8],
    at: usize,
) -> usize
    requires step { Step Dst (nx -ℤ x) (ny -ℤ y) }
    requires step_2 { Step Dst (mx -ℤ nx) (my -ℤ ny) }
    requires tables { Tables wide.now high.now }
    requires at_in_bounds { at + 6 ≤ length out.old }
    ensures { Puts out at result (dst_cmd Stitch (nx -ℤ x) (ny -ℤ y) ++ dst_cmd Stitch (mx -ℤ nx) (my -ℤ ny)) }
{
    let second = put_move(0x03, step(x, nx), step(y, ny), wide, high, out, at);
    put_move(0x03, step(nx, mx), step(ny, my), wide, high, out, second)
}

// The command at i, after the place (x, y).
fn put_at(
    xs: &[i32],
    ys: &[i32],
    kinds: &[u8],
    i: usize,
    x: i32,
    y: i32,
    wide: &[u32],
    high: &[u32],
    out: &mut [u8],
    at: usize,
) -> usize
    requires i_in_bounds { (i < length (commands xs.now ys.now kinds.now)) × StepAt Dst xs.now ys.now i x y }
    requires tables { Tables wide.now high.now }
    requires y_in_bounds { at + length (bytes_at Dst xs.now ys.now kinds.now i x y) ≤ length out.old }
    ensures { Puts out at result (bytes_at Dst xs.now ys.now kinds.now i x y) }
{
    dst_cmd(
        op_of(kinds[i]),
        step(x, xs[i]),
        step(y, ys[i]),
        wide,
        high,
        out,
        at,
    )
}

// All commands: two stitches in a row at once, any other command by itself.
fn put_records(
    xs: &[i32],
    ys: &[i32],
    kinds: &[u8],
    wide: &[u32],
    high: &[u32],
    out: &mut [u8],
    at: usize,
) -> usize
    requires ready { Ready Dst xs.now ys.now kinds.now out.old at }
    requires tables { Tables wide.now high.now }
    ensures { Puts out at result (written dst_cmd (pos 0) (pos 0) (commands xs.now ys.now kinds.now)) }
{
    let n = list_len(xs, ys, kinds);
    let mut x: i32 = 0;
    let mut y: i32 = 0;
    let mut to = at;
    let mut i = 0;
    // Kept as while: a turn goes on by one command or by two.
    while i + 1 < n {
        let j = i + 1;
        if are_stitches(kinds[i], kinds[j]) {
            let mx = xs[j];
            let my = ys[j];
            to = put_two(x, y, xs[i], ys[i], mx, my, wide, high, out, to);
            x = mx;
            y = my;
            i = j + 1;
            continue;
        }
        to = put_at(xs, ys, kinds, i, x, y, wide, high, out, to);
        x = xs[i];
        y = ys[i];
        i = j;
    }
    if i < n {
        return put_at(xs, ys, kinds, i, x, y, wide, high, out, to);
    }
    to
}

pub fn put_triples(xs: &[i32], ys: &[i32], kinds: &[u8], out: &mut [u8], at: usize) -> usize
    requires { Ready Dst xs.now ys.now kinds.now out.old at }
    ensures { Puts out at result (written dst_cmd (pos 0) (pos 0) (commands xs.now ys.now kinds.now)) }
{
    let wide = table(true);
    let high = table(false);
    put_records(xs, ys, kinds, &wide, &high, out, at)
}

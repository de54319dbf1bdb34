// EXP and JEF: the commands of a list, two stitches in a row at once.
// A port of src/formats/more.rs of zigzag, changed.
ghost use Rattle.std.specs.Prelude.{◌++◌, ◌+◌, ◌≤◌, ◌<◌, pos, ◌-ℤ◌, length};
ghost use Rattle.rules.specs.Lists.{commands, written};
ghost use Rattle.rules.specs.Exp.{pair_of};
ghost use Rattle.stream_cmd.specs.declared.Stream.TheVariants.{Exp};
ghost use Rattle.laws.specs.Buffers.{Puts};
ghost use Rattle.stream_cmd.specs.Cmds.{cmd_of, pair_stream, Step, Ready, StepAt, bytes_at};

use formats::{are_stitches, list_len, op_of};
use geom::step;
use stream_cmd::pairs::{pair_cmd, put_pair};

// Two stitches, from (x, y) to (nx, ny) and on to (mx, my).
fn put_two(x: i32, y: i32, nx: i32, ny: i32, mx: i32, my: i32, out: &mut [u8], at: usize) -> usize
    requires step { Step Exp (nx -ℤ x) (ny -ℤ y) }
    requires step_2 { Step Exp (mx -ℤ nx) (my -ℤ ny) }
    requires at_in_bounds { at + 4 ≤ length out.old }
    ensures { Puts out at result (pair_of (nx -ℤ x) (ny -ℤ y) ++ pair_of (mx -ℤ nx) (my -ℤ ny)) }
{
    let second = put_pair(step(x, nx), step(y, ny), out, at);
    put_pair(step(nx, mx), step(ny, my), out, second)
}

// The command at i, after the place (x, y).
fn put_at(
    jef: bool,
    xs: &[i32],
    ys: &[i32],
    kinds: &[u8],
    i: usize,
    x: i32,
    y: i32,
    out: &mut [u8],
    at: usize,
) -> usize
    requires i_in_bounds { (i < length (commands xs.now ys.now kinds.now)) × StepAt (pair_stream jef) xs.now ys.now i x y }
    requires y_in_bounds { at + length (bytes_at (pair_stream jef) xs.now ys.now kinds.now i x y) ≤ length out.old }
    ensures { Puts out at result (bytes_at (pair_stream jef) xs.now ys.now kinds.now i x y) }
{
    pair_cmd(
        jef,
        op_of(kinds[i]),
        step(x, xs[i]),
        step(y, ys[i]),
        out,
        at,
    )
}

// All commands: two stitches in a row at once, any other command by itself.
pub fn put_pairs(
    jef: bool,
    xs: &[i32],
    ys: &[i32],
    kinds: &[u8],
    out: &mut [u8],
    at: usize,
) -> usize
    requires { Ready (pair_stream jef) xs.now ys.now kinds.now out.old at }
    ensures { Puts out at result (written (cmd_of (pair_stream jef)) (pos 0) (pos 0) (commands xs.now ys.now kinds.now)) }
{
    let n = list_len(xs, ys, kinds);
    let mut x: i32 = 0;
    let mut y: i32 = 0;
    let mut to = at;
    let mut i = 0;
    // Kept as while: a turn goes on by one command or by two.
    while i + 1 < n {
        let j = i + 1;
        if are_stitches(kinds[i], kinds[j]) {
            let mx = xs[j];
            let my = ys[j];
            to = put_two(x, y, xs[i], ys[i], mx, my, out, to);
            x = mx;
            y = my;
            i = j + 1;
            continue;
        }
        to = put_at(jef, xs, ys, kinds, i, x, y, out, to);
        x = xs[i];
        y = ys[i];
        i = j;
    }
    if i < n {
        return put_at(jef, xs, ys, kinds, i, x, y, out, to);
    }
    to
}

// PEC: the stitches of a list, one command after the other.
// A port of src/formats/pes.rs of zigzag, changed.
#![tactic(auto)]

ghost use Rattle.std.specs.Prelude.{◌≡◌, true, false, not, ◌&&◌, ◌+◌, ◌-◌, ◌*◌, ◌<◌, ◌≤◌, pos, ◌-ℤ◌, eqb, length};
ghost use Rattle.rules.specs.Lists.{commands};
ghost use Rattle.rules.specs.Pec.{pec_start, pec_stitches};
ghost use Rattle.rules.specs.Refusals.{step_too_long};
ghost use Rattle.rules.specs.declared.Format.TheVariants.{Pec};
ghost use Rattle.laws.specs.Buffers.{Puts};
ghost use Rattle.laws.specs.Listing.{cmd_at};
ghost use Rattle.pec_cmd.specs.States.{Step};
ghost use Rattle.pec.specs.Shorts.{ShortAt, Shorts, pairs};

use emit::put2;
use formats::{list_len, op_of};
use geom::{P, step};
use pec_cmd::{cmd_len, is_short, low7, next, put_cmd, put_steps, start, steps_len};
use rules::Cmd;

// A stitch that follows a stitch or a colour change: no stitch 00 00 goes before it.
fn is_going(kind: u8, jumped: bool) -> bool
    ensures { result ≡ (not jumped && eqb kind 0) }
{
    !jumped && kind == 0
}

// Whether the command at i is a stitch whose two steps take one byte each.
fn is_short_at(xs: &[i32], ys: &[i32], kinds: &[u8], i: usize) -> bool
    requires i_nonzero { (0 < i) × (i < length (commands xs.now ys.now kinds.now)) }
    requires kinds_value { step_too_long Pec (commands xs.now ys.now kinds.now) ≡ false }
    ensures { result ≡ true → ShortAt xs.now ys.now kinds.now i }
{
    let dx = step(xs[i - 1], xs[i]);
    let dy = step(ys[i - 1], ys[i]);
    is_short(dx) & is_short(dy) & (kinds[i] == 0)
}

// Whether the eight commands from i on are such stitches.
fn are_short(xs: &[i32], ys: &[i32], kinds: &[u8], i: usize) -> bool
    requires i_nonzero { (0 < i) × (i + 8 ≤ length (commands xs.now ys.now kinds.now)) }
    requires kinds_value { step_too_long Pec (commands xs.now ys.now kinds.now) ≡ false }
    ensures { result ≡ true → Shorts xs.now ys.now kinds.now i (i + 8) }
{
    let mut all = true;
    for k in i..i + 8 {
        all = all & is_short_at(xs, ys, kinds, k);
    }
    all
}

// The end of the stitches from i on, taken by eights, whose steps take one byte each.
fn short_till(xs: &[i32], ys: &[i32], kinds: &[u8], i: usize) -> usize
    requires i_nonzero { (0 < i) × (i ≤ length (commands xs.now ys.now kinds.now)) }
    requires kinds_value { step_too_long Pec (commands xs.now ys.now kinds.now) ≡ false }
    ensures { (i ≤ result) × ((result ≤ length (commands xs.now ys.now kinds.now)) × Shorts xs.now ys.now kinds.now i result) }
{
    let n = list_len(xs, ys, kinds);
    let mut k = i;
    // Kept as while: each turn goes on by eight commands.
    while k + 8 <= n {
        if !are_short(xs, ys, kinds, k) {
            return k;
        }
        k += 8;
    }
    k
}

// The bytes of such stitches, from i to before j.
fn put_shorts(
    xs: &[i32],
    ys: &[i32],
    kinds: &[u8],
    i: usize,
    j: usize,
    out: &mut [u8],
    at: usize,
) -> usize
    requires i_nonzero { (0 < i) × ((i ≤ j) × (j ≤ length (commands xs.now ys.now kinds.now))) }
    requires shorts { Shorts xs.now ys.now kinds.now i j }
    requires i_in_bounds { at + 2 * (j - i) ≤ length out.old }
    ensures { Puts out at result (pairs xs.now ys.now i (j - i)) }
{
    let mut to = at;
    for k in i..j {
        let dx = step(xs[k - 1], xs[k]);
        let dy = step(ys[k - 1], ys[k]);
        to = put2(out, to, low7(dx), low7(dy));
    }
    to
}

// Whether to look for such stitches: not where a stitch 00 00 may go before, and not soon after the last look.
fn looks(jumped: bool, wait: usize) -> bool
    ensures { result ≡ (not jumped && eqb wait 0) }
{
    !jumped && wait == 0
}

// The command at i.
fn cmd_at(xs: &[i32], ys: &[i32], kinds: &[u8], i: usize) -> Cmd
    requires { i < length (commands xs.now ys.now kinds.now) }
    ensures { result ≡ cmd_at xs.now ys.now kinds.now i }
{
    Cmd {
        x: xs[i],
        y: ys[i],
        kind: kinds[i],
    }
}

// The step from one command to another.
fn step_to(last: Cmd, c: Cmd) -> P
    requires { Step (c.x -ℤ last.x) (c.y -ℤ last.y) }
    ensures { (result.x ≡ c.x -ℤ last.x) × (result.y ≡ c.y -ℤ last.y) }
{
    P {
        x: step(last.x, c.x),
        y: step(last.y, c.y),
    }
}

// Where a list begins.
const ORIGIN: Cmd = Cmd {
    x: 0,
    y: 0,
    kind: 0,
};

// The bytes that all commands take.
pub fn pec_len(xs: &[i32], ys: &[i32], kinds: &[u8]) -> usize
    requires { (length kinds.now ≤ 65535) × (step_too_long Pec (commands xs.now ys.now kinds.now) ≡ false) }
    ensures { result ≡ length (pec_stitches pec_start (pos 0) (pos 0) (commands xs.now ys.now kinds.now)) }
{
    let n = list_len(xs, ys, kinds);
    let mut s = start();
    let mut last = ORIGIN;
    let mut total = 0;
    let mut i = 0;
    let mut wait = 0;
    // Kept as while: a turn goes on by one command or by a run of short stitches.
    while i < n {
        if looks(s.jumped, wait) {
            let end = short_till(xs, ys, kinds, i);
            total += 2 * (end - i);
            last = cmd_at(xs, ys, kinds, end - 1);
            i = end;
            wait = 8;
            continue;
        }
        wait = wait.saturating_sub(1);
        let c = cmd_at(xs, ys, kinds, i);
        let by = step_to(last, c);
        last = c;
        i += 1;
        if is_going(c.kind, s.jumped) {
            total += steps_len(by.x, by.y);
            continue;
        }
        let op = op_of(c.kind);
        total += cmd_len(s, op, by.x, by.y);
        s = next(s, op);
    }
    total
}

// The bytes of all commands, from `at` on.
pub fn pec_encode(xs: &[i32], ys: &[i32], kinds: &[u8], out: &mut [u8], at: usize) -> usize
    requires kinds_value { step_too_long Pec (commands xs.now ys.now kinds.now) ≡ false }
    requires kinds_in_bounds { at + length (pec_stitches pec_start (pos 0) (pos 0) (commands xs.now ys.now kinds.now)) ≤ length out.old }
    ensures { Puts out at result (pec_stitches pec_start (pos 0) (pos 0) (commands xs.now ys.now kinds.now)) }
{
    let n = list_len(xs, ys, kinds);
    let mut s = start();
    let mut last = ORIGIN;
    let mut to = at;
    let mut i = 0;
    let mut wait = 0;
    // Kept as while: a turn goes on by one command or by a run of short stitches.
    while i < n {
        if looks(s.jumped, wait) {
            let end = short_till(xs, ys, kinds, i);
            to = put_shorts(xs, ys, kinds, i, end, out, to);
            last = cmd_at(xs, ys, kinds, end - 1);
            i = end;
            wait = 8;
            continue;
        }
        wait = wait.saturating_sub(1);
        let c = cmd_at(xs, ys, kinds, i);
        let by = step_to(last, c);
        last = c;
        i += 1;
        if is_going(c.kind, s.jumped) {
            to = put_steps(by.x, by.y, out, to);
            continue;
        }
        let op = op_of(c.kind);
        to = put_cmd(s, op, by.x, by.y, out, to);
        s = next(s, op);
    }
    to
}

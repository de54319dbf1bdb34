// PES: the sections of a design, and the log of their colours.
// A port of src/formats/pes.rs of zigzag, changed.
#![tactic(auto)]

ghost use Rattle.std.specs.Prelude.{◌≡◌, true, ◌+◌, ◌-◌, ◌*◌, ◌<◌, ◌≤◌, pos, length, drop, get_or};
ghost use Rattle.rules.specs.Lists.{op_of, commands, threads_of};
ghost use Rattle.rules.specs.Pes.{run_length};
ghost use Rattle.rules.specs.declared.Op.TheVariants.{Stitch, Jump};
ghost use Rattle.laws.specs.Buffers.{Puts};
ghost use Rattle.pec_threads.specs.Codes.{Coded};
ghost use Rattle.pes_section_cmd.specs.States.{Near};
ghost use Rattle.pes_sections.specs.Alike.{Alike, points};
ghost use Rattle.pes_sections.specs.States.{placed, measures, cmd_text, sections_text, log_text};

use formats::{list_len, op_of};
use pes_section_cmd::{
    State, cmd_len, goes_on, is_logged, is_new, last_code, moved, next, one_if, put_entry,
    put_open, put_point, start,
};
use rules::Op;

// Whether the eight commands from i on are of one kind.
fn are_alike(kinds: &[u8], kind: u8, i: usize) -> bool
    requires { i + 8 ≤ length kinds.now }
    ensures { result ≡ true → Alike kinds.now kind i (i + 8) }
{
    let mut all = true;
    for k in i..i + 8 {
        all = all & (kinds[k] == kind);
    }
    all
}

// The end of the commands of one kind from i on, taken by eights, among the first n.
fn alike_till(kinds: &[u8], kind: u8, i: usize, n: usize) -> usize
    requires { (i ≤ n) × (n ≤ length kinds.now) }
    ensures { (i ≤ result) × ((result ≤ n) × Alike kinds.now kind i result) }
{
    let mut k = i;
    // Kept as while: each turn goes on by eight commands.
    while k + 8 <= n {
        if !are_alike(kinds, kind, k) {
            return k;
        }
        k += 8;
    }
    k
}

// Where the run of one kind that begins at `from` ends.
fn run_end(xs: &[i32], ys: &[i32], kinds: &[u8], from: usize) -> usize
    requires { from < length (commands xs.now ys.now kinds.now) }
    ensures { result ≡ from + run_length (get_or kinds.now from 0) (drop from (commands xs.now ys.now kinds.now)) }
{
    let n = list_len(xs, ys, kinds);
    let kind = kinds[from];
    let rest = alike_till(kinds, kind, from, n);
    for i in rest..n {
        if kinds[i] != kind {
            return i;
        }
    }
    n
}

// The places from i to before j.
fn put_points(
    left: i32,
    bottom: i32,
    xs: &[i32],
    ys: &[i32],
    kinds: &[u8],
    i: usize,
    j: usize,
    out: &mut [u8],
    at: usize,
) -> usize
    requires i_le_j { (i ≤ j) × ((j ≤ length (commands xs.now ys.now kinds.now)) × (placed left bottom (commands xs.now ys.now kinds.now))) }
    requires i_in_bounds { at + 4 * (j - i) ≤ length out.old }
    ensures { Puts out at result (points left bottom xs.now ys.now i (j - i)) }
{
    let mut to = at;
    for k in i..j {
        to = put_point(left, bottom, xs[k], ys[k], out, to);
    }
    to
}

// What a stitch at i writes.
fn put_stitch(
    left: i32,
    bottom: i32,
    s: State,
    new: bool,
    xs: &[i32],
    ys: &[i32],
    kinds: &[u8],
    i: usize,
    out: &mut [u8],
    at: usize,
) -> usize
    requires i_in_bounds { i < length (commands xs.now ys.now kinds.now) }
    requires near { Near left bottom (get_or xs.now i (pos 0)) (get_or ys.now i (pos 0)) }
    requires i_in_bounds_2 { at + length (cmd_text left bottom s new Stitch xs.now ys.now kinds.now i) ≤ length out.old }
    ensures { Puts out at result (cmd_text left bottom s new Stitch xs.now ys.now kinds.now i) }
{
    let x = xs[i];
    let y = ys[i];
    if new {
        let points = run_end(xs, ys, kinds, i) - i;
        let point = put_open(s, 0, points, out, at);
        return put_point(left, bottom, x, y, out, point);
    }
    put_point(left, bottom, x, y, out, at)
}

// What a jump at i writes.
fn put_jump(
    left: i32,
    bottom: i32,
    s: State,
    new: bool,
    xs: &[i32],
    ys: &[i32],
    kinds: &[u8],
    i: usize,
    out: &mut [u8],
    at: usize,
) -> usize
    requires i_in_bounds { i < length (commands xs.now ys.now kinds.now) }
    requires near { (Near left bottom s.x s.y) × (placed left bottom (commands xs.now ys.now kinds.now)) }
    requires i_in_bounds_2 { at + length (cmd_text left bottom s new Jump xs.now ys.now kinds.now i) ≤ length out.old }
    ensures { Puts out at result (cmd_text left bottom s new Jump xs.now ys.now kinds.now i) }
{
    if !new {
        return at;
    }
    let end = run_end(xs, ys, kinds, i) - 1;
    let from = put_open(s, 1, 2, out, at);
    let to = put_point(left, bottom, s.x, s.y, out, from);
    put_point(left, bottom, xs[end], ys[end], out, to)
}

// What the command at i writes.
fn put_cmd(
    left: i32,
    bottom: i32,
    s: State,
    new: bool,
    xs: &[i32],
    ys: &[i32],
    kinds: &[u8],
    i: usize,
    out: &mut [u8],
    at: usize,
) -> usize
    requires i_in_bounds { i < length (commands xs.now ys.now kinds.now) }
    requires near { (Near left bottom s.x s.y) × (placed left bottom (commands xs.now ys.now kinds.now)) }
    requires i_in_bounds_2 { at + length (cmd_text left bottom s new (op_of (get_or kinds.now i 0)) xs.now ys.now kinds.now i) ≤ length out.old }
    ensures { Puts out at result (cmd_text left bottom s new (op_of (get_or kinds.now i 0)) xs.now ys.now kinds.now i) }
{
    match op_of(kinds[i]) {
        Op::Stitch => put_stitch(left, bottom, s, new, xs, ys, kinds, i, out, at),
        Op::Jump => put_jump(left, bottom, s, new, xs, ys, kinds, i, out, at),
        Op::Trim | Op::ColorChange | Op::End => at,
    }
}

// All sections, by the left and the bottom edge.
pub fn put_sections(
    left: i32,
    bottom: i32,
    codes: &[u8; 256],
    threads: &[u8],
    xs: &[i32],
    ys: &[i32],
    kinds: &[u8],
    out: &mut [u8],
    at: usize,
) -> usize
    requires coded { Coded (threads_of threads.now) codes.now }
    requires kinds_len_bound { (length kinds.now ≤ 65535) × ((Near left bottom (pos 0) (pos 0)) × (placed left bottom (commands xs.now ys.now kinds.now))) }
    requires kinds_in_bounds { at + length (sections_text left bottom threads.now xs.now ys.now kinds.now) ≤ length out.old }
    ensures { Puts out at result (sections_text left bottom threads.now xs.now ys.now kinds.now) }
{
    let n = list_len(xs, ys, kinds);
    let mut s = start(codes, threads);
    let mut to = at;
    let mut i = 0;
    // Kept as while: a turn goes on by one command or by a whole run.
    while i < n {
        let kind = kinds[i];
        let new = is_new(s, kind);
        if goes_on(new, kind) {
            let end = run_end(xs, ys, kinds, i);
            to = put_points(left, bottom, xs, ys, kinds, i, end, out, to);
            s = moved(s, xs[end - 1], ys[end - 1]);
            i = end;
            continue;
        }
        to = put_cmd(left, bottom, s, new, xs, ys, kinds, i, out, to);
        s = next(codes, threads, s, new, kind, xs[i], ys[i]);
        i += 1;
    }
    to
}

// How many bytes the sections take, how many sections there are, and how many are logged.
#[derive(Clone, Copy)]
pub struct Sizes {
    pub bytes: usize,
    pub sections: usize,
    pub logged: usize,
}

pub fn measured(codes: &[u8; 256], threads: &[u8], xs: &[i32], ys: &[i32], kinds: &[u8]) -> Sizes
    requires coded { Coded (threads_of threads.now) codes.now }
    requires kinds_len_bound { length kinds.now ≤ 65535 }
    ensures { measures (threads_of threads.now) (commands xs.now ys.now kinds.now) result }
{
    let n = list_len(xs, ys, kinds);
    let mut s = start(codes, threads);
    let mut bytes = 0;
    let mut logged = 0;
    let mut last = 65;
    let mut i = 0;
    // Kept as while: a turn goes on by one command or by a whole run.
    while i < n {
        let kind = kinds[i];
        let new = is_new(s, kind);
        if goes_on(new, kind) {
            let end = run_end(xs, ys, kinds, i);
            bytes += 4 * (end - i);
            i = end;
            continue;
        }
        let log = is_logged(last, s.code, new, kind);
        bytes += cmd_len(s.sections, new, kind);
        logged += one_if(log);
        last = last_code(log, s.code, last);
        s = next(codes, threads, s, new, kind, xs[i], ys[i]);
        i += 1;
    }
    Sizes {
        bytes,
        sections: s.sections,
        logged,
    }
}

// The colour log.
pub fn put_log(
    codes: &[u8; 256],
    threads: &[u8],
    xs: &[i32],
    ys: &[i32],
    kinds: &[u8],
    out: &mut [u8],
    at: usize,
) -> usize
    requires coded { Coded (threads_of threads.now) codes.now }
    requires kinds_len_bound { length kinds.now ≤ 65535 }
    requires kinds_in_bounds { at + length (log_text threads.now xs.now ys.now kinds.now) ≤ length out.old }
    ensures { Puts out at result (log_text threads.now xs.now ys.now kinds.now) }
{
    let n = list_len(xs, ys, kinds);
    let mut s = start(codes, threads);
    let mut last = 65;
    let mut to = at;
    let mut i = 0;
    // Kept as while: a turn goes on by one command or by a whole run.
    while i < n {
        let kind = kinds[i];
        let new = is_new(s, kind);
        if goes_on(new, kind) {
            i = run_end(xs, ys, kinds, i);
            continue;
        }
        let log = is_logged(last, s.code, new, kind);
        to = put_entry(log, s.sections, s.code, out, to);
        last = last_code(log, s.code, last);
        s = next(codes, threads, s, new, kind, xs[i], ys[i]);
        i += 1;
    }
    to
}

// What is asked of a list of commands and its threads before it is written or exported: refusals 6 to 10.
// Each check goes over the whole list, for slices of any lengths, with no early exit: so its loop compiles to vector instructions.
#![tactic(auto)]

ghost use Rattle.std.specs.Prelude.{◌≡◌, false, ◌&&◌, not, ◌≤◌, ltb, length};
ghost use Rattle.rules.specs.Vocabulary.{between, eq_z, any, count};
ghost use Rattle.rules.specs.Lists.{commands, op_of, ends_once, placed, same_place, is_change, stands};
ghost use Rattle.rules.specs.Refusals.{number_of, bad_list, place_outside, changes, too_many, moved, step_too_long, least_step, greatest_step};
ghost use Rattle.rules.specs.Refusals.{command_verdict, list_verdict};

use rules::{
    Format, GREATEST_PLACE, LEAST_PLACE, MOST_CHANGES, MOST_COMMANDS, MOST_THREADS, Refusal,
};

// The number of a refusal.
#[tactic(auto, unfolding(rules::specs::Refusals::number_of))]
pub fn number(r: Refusal) -> u32
    ensures { result ≡ number_of r }
{
    r as u32
}

fn is_between(lo: i32, hi: i32, z: i32) -> bool
    ensures { result ≡ between lo hi z }
{
    (lo <= z) & (z <= hi)
}

fn is_same(a: i32, b: i32) -> bool
    ensures { result ≡ eq_z a b }
{
    a == b
}

// 6: a kind over 4.
// Kept as a number: it asks whether the kind is one at all (`bad_list`).
fn kind_over(kinds: &[u8]) -> bool
    ensures { result ≡ any (ltb 4) kinds.now }
{
    let mut bad = false;
    for kind in kinds {
        bad = bad | (4 < *kind);
    }
    bad
}

// 6: the last kind, and only that, is an end.
fn ends_once(kinds: &[u8]) -> bool
    ensures { result ≡ ends_once kinds.now }
{
    if kinds.len() == 0 {
        return false;
    }
    let last = kinds.len() - 1;
    let mut early = false;
    for i in 0..last {
        early = early | (kinds[i] == 4);
    }
    !early & (kinds[last] == 4)
}

pub fn bad_list(xs: &[i32], ys: &[i32], kinds: &[u8]) -> bool
    ensures { result ≡ bad_list xs.now ys.now kinds.now }
{
    let n = kinds.len();
    if n == 0 {
        return true;
    }
    if MOST_COMMANDS < n {
        return true;
    }
    if xs.len() != n {
        return true;
    }
    if ys.len() != n {
        return true;
    }
    if kind_over(kinds) {
        return true;
    }
    !ends_once(kinds)
}

pub fn is_placed(x: i32, y: i32) -> bool
    ensures { result ≡ placed x y }
{
    is_between(LEAST_PLACE, GREATEST_PLACE, x) & is_between(LEAST_PLACE, GREATEST_PLACE, y)
}

// 7: a place outside the range.
pub fn place_outside(xs: &[i32], ys: &[i32], kinds: &[u8]) -> bool
    ensures { result ≡ place_outside (commands xs.now ys.now kinds.now) }
{
    let n = formats::list_len(xs, ys, kinds);
    let mut bad = false;
    for i in 0..n {
        bad = bad | !is_placed(xs[i], ys[i]);
    }
    bad
}

// Kind 3.
pub fn is_change(kind: u8) -> bool
    ensures { result ≡ is_change (op_of kind) }
{
    kind == 3
}

// How many commands change the colour.
pub fn color_changes(xs: &[i32], ys: &[i32], kinds: &[u8]) -> usize
    requires { length kinds.now ≤ 65535 }
    ensures { result ≡ count changes (commands xs.now ys.now kinds.now) }
{
    let n = formats::list_len(xs, ys, kinds);
    let mut found: u16 = 0;
    for i in 0..n {
        found += is_change(kinds[i]) as u16;
    }
    found as usize
}

// 8: too many colour changes or threads, or thread bytes not a multiple of three.
pub fn too_many(xs: &[i32], ys: &[i32], kinds: &[u8], threads: &[u8]) -> bool
    requires { length kinds.now ≤ 65535 }
    ensures { result ≡ too_many (commands xs.now ys.now kinds.now) threads.now }
{
    if MOST_CHANGES < color_changes(xs, ys, kinds) {
        return true;
    }
    if MOST_THREADS < threads.len() / 3 {
        return true;
    }
    threads.len() % 3 != 0
}

// From kind 2 up: trim, colour change and end.
fn is_standing(kind: u8) -> bool
    ensures { result ≡ stands (op_of kind) }
{
    1 < kind
}

fn is_same_place(x0: i32, y0: i32, x: i32, y: i32) -> bool
    ensures { result ≡ same_place x0 y0 x y }
{
    is_same(x0, x) & is_same(y0, y)
}

pub fn moves(kind: u8, x0: i32, y0: i32, x: i32, y: i32) -> bool
    ensures { result ≡ (stands (op_of kind) && not (same_place x0 y0 x y)) }
{
    is_standing(kind) & !is_same_place(x0, y0, x, y)
}

// 9: a trim, colour change or end that moves.
pub fn moved(xs: &[i32], ys: &[i32], kinds: &[u8]) -> bool
    ensures { result ≡ moved (commands xs.now ys.now kinds.now) }
{
    let n = formats::list_len(xs, ys, kinds);
    let mut x: i32 = 0;
    let mut y: i32 = 0;
    let mut bad = false;
    for i in 0..n {
        let nx = xs[i];
        let ny = ys[i];
        bad = bad | moves(kinds[i], x, y, nx, ny);
        x = nx;
        y = ny;
    }
    bad
}

// The least and the greatest step of a format.
#[tactic(auto, unfolding(rules::specs::Refusals::least_step, rules::specs::Refusals::greatest_step))]
fn step_limits(f: Format) -> (i32, i32)
    ensures { result ≡ (least_step f, greatest_step f) }
{
    match f {
        Format::Pes | Format::Pec => (-2048, 2047),
        Format::Dst => (-121, 121),
        Format::Exp | Format::Jef => (-127, 127),
        Format::Vp3 => (-32000, 32000),
    }
}

fn is_step_in(lo: i32, hi: i32, dx: i32, dy: i32) -> bool
    ensures { result ≡ (between lo hi dx && between lo hi dy) }
{
    is_between(lo, hi, dx) & is_between(lo, hi, dy)
}

// 10: a step past the format's limit.
pub fn step_too_long(f: Format, xs: &[i32], ys: &[i32], kinds: &[u8]) -> bool
    requires { place_outside (commands xs.now ys.now kinds.now) ≡ false }
    ensures { result ≡ step_too_long f (commands xs.now ys.now kinds.now) }
{
    let n = formats::list_len(xs, ys, kinds);
    let (lo, hi) = step_limits(f);
    let mut x: i32 = 0;
    let mut y: i32 = 0;
    let mut bad = false;
    for i in 0..n {
        let nx = xs[i];
        let ny = ys[i];
        bad = bad | !is_step_in(lo, hi, nx - x, ny - y);
        x = nx;
        y = ny;
    }
    bad
}

// The first of refusals 6 to 9 that holds, each over the whole list before the next.
pub fn check_commands(xs: &[i32], ys: &[i32], kinds: &[u8], threads: &[u8]) -> Result<(), Refusal>
    ensures { result ≡ command_verdict xs.now ys.now kinds.now threads.now }
{
    if bad_list(xs, ys, kinds) {
        return Err(Refusal::BadList);
    }
    if place_outside(xs, ys, kinds) {
        return Err(Refusal::PlaceOutside);
    }
    if too_many(xs, ys, kinds, threads) {
        return Err(Refusal::TooMany);
    }
    if moved(xs, ys, kinds) {
        return Err(Refusal::Moved);
    }
    Ok(())
}

// The first of refusals 6 to 10 that holds.
pub fn check_list(
    f: Format,
    xs: &[i32],
    ys: &[i32],
    kinds: &[u8],
    threads: &[u8],
) -> Result<(), Refusal>
    ensures { result ≡ list_verdict f xs.now ys.now kinds.now threads.now }
{
    check_commands(xs, ys, kinds, threads)?;
    if step_too_long(f, xs, ys, kinds) {
        return Err(Refusal::StepTooLong);
    }
    Ok(())
}

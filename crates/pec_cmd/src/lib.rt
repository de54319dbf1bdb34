// PEC: the bytes of one command, and the state between two commands.
// A port of src/formats/pes.rs of zigzag, changed.
#![tactic(auto)]

ghost use Rattle.std.specs.Prelude.{◌≡◌, not, ◌&&◌, ◌++◌, ◌+◌, ◌<◌, ◌≤◌, pos, nat_abs, neg_ℤ, ◌-ℤ◌, length};
ghost use Rattle.rules.specs.Vocabulary.{pick, between, bits_of, eq_z};
ghost use Rattle.rules.specs.Pec.{wide, pec_value, pec_start, pec_next, pause, pec_cmd};
ghost use Rattle.rules.specs.declared.Op.TheVariants.{Stitch, Jump, ColorChange};
ghost use Rattle.laws.specs.Buffers.{Puts};
ghost use Rattle.pec_cmd.specs.States.{state_of, Step};

use emit::{put, put2, put3};
use rules::Op;

// Between two commands: no stitch or colour change since the last jump, or since the list began; the next colour byte is 02;
// no command yet.
// Kept as three flags: the definition `pec_next` has the three apart, and no value goes with one of them.
#[derive(Clone, Copy)]
pub struct State {
    pub jumped: bool,
    pub two: bool,
    pub opening: bool,
}

pub fn start() -> State
    ensures { state_of result ≡ pec_start }
{
    State {
        jumped: true,
        two: true,
        opening: true,
    }
}

pub fn next(s: State, op: Op) -> State
    ensures { state_of result ≡ pec_next (state_of s) op }
{
    match op {
        Op::Stitch => State {
            jumped: false,
            opening: false,
            ..s
        },
        Op::Jump => State {
            jumped: true,
            opening: false,
            ..s
        },
        Op::ColorChange => State {
            jumped: false,
            two: !s.two,
            opening: false,
        },
        Op::Trim | Op::End => State {
            opening: false,
            ..s
        },
    }
}

// A step that one byte holds.
pub fn is_short(z: i32) -> bool
    ensures { result ≡ between (neg_ℤ (pos 63)) (pos 62) z }
{
    if z < -63 {
        return false;
    }
    z <= 62
}

pub fn low7(z: i32) -> u8
    requires { nat_abs z ≤ 63 }
    ensures { result ≡ bits_of 6 z }
{
    (((z + 128) as u32) % 128) as u8
}

fn low12(z: i32) -> u32
    requires { nat_abs z ≤ 2048 }
    ensures { (result ≡ bits_of 11 z) × (result < 4096) }
{
    ((z + 4096) as u32) % 4096
}

// A step in two bytes, with a flag in the first.
fn put_wide(flag: u8, z: i32, out: &mut [u8], at: usize) -> usize
    requires flag_bound { (flag ≤ 240) × (nat_abs z ≤ 2048) }
    requires at_in_bounds { at + 2 ≤ length out.old }
    ensures { Puts out at result (wide flag z) }
{
    let v = low12(z);
    put2(out, at, flag + (v / 256) as u8, (v % 256) as u8)
}

fn value_len(z: i32) -> usize
    ensures { (result ≡ length (pec_value z)) × (result ≤ 2) }
{
    if is_short(z) {
        return 1;
    }
    2
}

// The bytes that the two steps of a stitch take.
pub fn steps_len(dx: i32, dy: i32) -> usize
    ensures { (result ≡ length (pec_value dx ++ pec_value dy)) × (result ≤ 4) }
{
    value_len(dx) + value_len(dy)
}

// A step of a stitch.
fn pec_value(z: i32, out: &mut [u8], at: usize) -> usize
    requires z_bound { nat_abs z ≤ 2048 }
    requires z_in_bounds { at + length (pec_value z) ≤ length out.old }
    ensures { Puts out at result (pec_value z) }
{
    if is_short(z) {
        return put(out, at, low7(z));
    }
    put_wide(0x80, z, out, at)
}

// The two steps of a stitch.
pub fn put_steps(dx: i32, dy: i32, out: &mut [u8], at: usize) -> usize
    requires step { Step dx dy }
    requires dy_in_bounds { at + length (pec_value dx ++ pec_value dy) ≤ length out.old }
    ensures { Puts out at result (pec_value dx ++ pec_value dy) }
{
    if steps_len(dx, dy) == 2 {
        return put2(out, at, low7(dx), low7(dy));
    }
    let y = pec_value(dx, out, at);
    pec_value(dy, out, y)
}

// Whether a stitch 00 00 goes before a stitch that moves on both axes.
fn pauses(jumped: bool, dx: i32, dy: i32) -> bool
    ensures { result ≡ (jumped && (not (eq_z dx (pos 0)) && not (eq_z dy (pos 0)))) }
{
    if !jumped {
        return false;
    }
    if dx == 0 {
        return false;
    }
    dy != 0
}

fn put_pause(needed: bool, out: &mut [u8], at: usize) -> usize
    requires { at + length (pause needed) ≤ length out.old }
    ensures { Puts out at result (pause needed) }
{
    if needed {
        return put2(out, at, 0x00, 0x00);
    }
    at
}

fn pause_len(needed: bool) -> usize
    ensures { (result ≡ length (pause needed)) × (result ≤ 2) }
{
    if needed {
        return 2;
    }
    0
}

fn put_stitch(s: State, dx: i32, dy: i32, out: &mut [u8], at: usize) -> usize
    requires step { Step dx dy }
    requires dy_in_bounds { at + length (pec_cmd (state_of s) Stitch dx dy) ≤ length out.old }
    ensures { Puts out at result (pec_cmd (state_of s) Stitch dx dy) }
{
    let x = put_pause(pauses(s.jumped, dx, dy), out, at);
    let y = pec_value(dx, out, x);
    pec_value(dy, out, y)
}

// The flag of a jump: another for one that opens the list.
fn flag(opening: bool) -> u8
    ensures { (result ≡ pick opening 0x90 0xA0) × (result ≤ 240) }
{
    if opening {
        return 0x90;
    }
    0xA0
}

fn put_jump(s: State, dx: i32, dy: i32, out: &mut [u8], at: usize) -> usize
    requires step { Step dx dy }
    requires at_in_bounds { at + 4 ≤ length out.old }
    ensures { Puts out at result (pec_cmd (state_of s) Jump dx dy) }
{
    let f = flag(s.opening);
    let y = put_wide(f, dx, out, at);
    put_wide(f, dy, out, y)
}

fn color_byte(two: bool) -> u8
    ensures { result ≡ pick two 0x02 0x01 }
{
    if two {
        return 0x02;
    }
    0x01
}

fn put_change(s: State, out: &mut [u8], at: usize) -> usize
    requires { at + length (pec_cmd (state_of s) ColorChange (pos 0) (pos 0)) ≤ length out.old }
    ensures { Puts out at result (pec_cmd (state_of s) ColorChange (pos 0) (pos 0)) }
{
    let change = put_pause(s.jumped, out, at);
    put3(out, change, 0xFE, 0xB0, color_byte(s.two))
}

// The bytes that a command takes.
pub fn cmd_len(s: State, op: Op, dx: i32, dy: i32) -> usize
    ensures { (result ≡ length (pec_cmd (state_of s) op dx dy)) × (result ≤ 6) }
{
    match op {
        Op::Stitch => pause_len(pauses(s.jumped, dx, dy)) + value_len(dx) + value_len(dy),
        Op::Jump => 4,
        Op::Trim => 0,
        Op::ColorChange => pause_len(s.jumped) + 3,
        Op::End => 1,
    }
}

pub fn put_cmd(s: State, op: Op, dx: i32, dy: i32, out: &mut [u8], at: usize) -> usize
    requires step { Step dx dy }
    requires dy_in_bounds { at + length (pec_cmd (state_of s) op dx dy) ≤ length out.old }
    ensures { Puts out at result (pec_cmd (state_of s) op dx dy) }
{
    match op {
        Op::Stitch => put_stitch(s, dx, dy, out, at),
        Op::Jump => put_jump(s, dx, dy, out, at),
        Op::Trim => at,
        Op::ColorChange => put_change(s, out, at),
        Op::End => put(out, at, 0xFF),
    }
}

// DST: signed digits of weight 81, 27, 9, 3, 1 on each axis.
// A port of src/formats/dst.rs of zigzag, changed.
ghost use Rattle.std.specs.Prelude.{◌≡◌, ◌+◌, ◌≤◌, ◌<◌, pos, nat_abs, neg_ℤ, ◌+ℤ◌, length};
ghost use Rattle.rules.specs.Vocabulary.{from_little};
ghost use Rattle.rules.specs.Dst.{digit, rest, pair, dst_bytes, dst_cmd};
ghost use Rattle.stream_cmd.specs.declared.Stream.TheVariants.{Dst};
ghost use Rattle.rules.specs.declared.Op.TheVariants.{Trim};
ghost use Rattle.laws.specs.Buffers.{Puts};
ghost use Rattle.stream_cmd.specs.Cmds.{Step, digit_value, digits_of, part_of, Parts, Tables};

use emit::{put_three, put3};
use rules::Op;

// The digits of a step, each -1, 0 or 1, by weight.
#[derive(Clone, Copy)]
pub struct Digits {
    pub d81: i32,
    pub d27: i32,
    pub d9: i32,
    pub d3: i32,
    pub d1: i32,
}

// The digit of z whose lower digits reach to `reach`.
fn digit(z: i32, reach: u8) -> i32
    ensures { result ≡ digit_value (digit reach z) }
{
    let most = reach as i32;
    if most < z {
        return 1;
    }
    if z < 0 - most {
        return -1;
    }
    0
}

// What z leaves to its lower digits, its digit of that weight being d.
fn rest(z: i32, weight: u8, d: i32) -> i32
    requires { (nat_abs z ≤ 121) × (nat_abs d ≤ 1) }
    ensures { result ≡ rest weight (digit 0 d) z }
{
    z - d * (weight as i32)
}

// The digits of a step, the greatest weight first.
fn digits_of(z: i32) -> Digits
    requires { nat_abs z ≤ 121 }
    ensures { result ≡ digits_of z }
{
    let d81 = digit(z, 40);
    let z27 = rest(z, 81, d81);
    let d27 = digit(z27, 13);
    let z9 = rest(z27, 27, d27);
    let d9 = digit(z9, 4);
    let z3 = rest(z9, 9, d9);
    let d3 = digit(z3, 1);
    let z1 = rest(z3, 3, d3);
    let d1 = digit(z1, 0);
    Digits {
        d81,
        d27,
        d9,
        d3,
        d1,
    }
}

// The bit of one digit: that of its sign, or none.
fn bits(d: i32, plus: u8, minus: u8) -> u8
    ensures { (result ≡ pair plus minus (digit 0 d)) × (result ≤ plus + minus) }
{
    if 0 < d {
        return plus;
    }
    if d < 0 {
        return minus;
    }
    0
}

// A record that moves by (dx, dy), with the bits of its kind.
fn encode_record(kind: u8, dx: i32, dy: i32) -> [u8; 3]
    requires { (kind ≤ 131) × ((nat_abs dx ≤ 121) × (nat_abs dy ≤ 121)) }
    ensures { result ≡ dst_bytes kind dx (neg_ℤ dy) }
{
    let x = digits_of(dx);
    let y = digits_of(0 - dy);
    [
        bits(x.d1, 0x01, 0x02)
            + bits(x.d9, 0x04, 0x08)
            + bits(y.d9, 0x20, 0x10)
            + bits(y.d1, 0x80, 0x40),
        bits(x.d3, 0x01, 0x02)
            + bits(x.d27, 0x04, 0x08)
            + bits(y.d27, 0x20, 0x10)
            + bits(y.d3, 0x80, 0x40),
        kind + bits(x.d81, 0x04, 0x08) + bits(y.d81, 0x20, 0x10),
    ]
}

fn put_record(kind: u8, dx: i32, dy: i32, out: &mut [u8], at: usize) -> usize
    requires kind_bound { (kind ≤ 131) × ((nat_abs dx ≤ 121) × (nat_abs dy ≤ 121)) }
    requires at_in_bounds { at + 3 ≤ length out.old }
    ensures { Puts out at result (dst_bytes kind dx (neg_ℤ dy)) }
{
    let r = encode_record(kind, dx, dy);
    put3(out, at, r[0], r[1], r[2])
}

// Three jumps that come back read as a trim.
fn put_trim(out: &mut [u8], at: usize) -> usize
    requires { at + 9 ≤ length out.old }
    ensures { Puts out at result (dst_cmd Trim (pos 0) (pos 0)) }
{
    let second = put_record(0x83, 2, 2, out, at);
    let third = put_record(0x83, -4, -4, out, second);
    put_record(0x83, 2, 2, out, third)
}

// The bits of a step in one number, the low byte first.
fn packed(dx: i32, dy: i32) -> u32
    requires { (nat_abs dx ≤ 121) × (nat_abs dy ≤ 121) }
    ensures { result ≡ from_little (dst_bytes 0 dx (neg_ℤ dy)) }
{
    let r = encode_record(0, dx, dy);
    u32::from_le_bytes([r[0], r[1], r[2], 0])
}

// The bits of the step t - 121 along x, or else of 121 - t along y.
fn part(wide: bool, t: usize) -> u32
    requires { t < 243 }
    ensures { result ≡ part_of wide t }
{
    let n = t as i32;
    if wide {
        return packed(n - 121, 0);
    }
    packed(0, 121 - n)
}

// The bits of all steps along x, or else along y.
pub fn table(wide: bool) -> [u32; 243]
    ensures { Parts wide result }
{
    let mut parts = [0u32; 243];
    for t in 0..243 {
        parts[t] = part(wide, t);
    }
    parts
}

// The entry of a step in a table.
fn raised(z: i32) -> usize
    requires { nat_abs z ≤ 121 }
    ensures { pos result ≡ z +ℤ pos 121 }
{
    (z + 121) as usize
}

// A record put together from its parts.
pub fn put_move(
    kind: u32,
    dx: i32,
    dy: i32,
    wide: &[u32],
    high: &[u32],
    out: &mut [u8],
    at: usize,
) -> usize
    requires kind_bound { (kind ≤ 131) × Step Dst dx dy }
    requires tables { Tables wide.now high.now }
    requires at_in_bounds { at + 3 ≤ length out.old }
    ensures { Puts out at result (dst_bytes kind dx (neg_ℤ dy)) }
{
    let v = 65536 * kind + wide[raised(dx)] + high[raised(0 - dy)];
    put_three(out, at, v)
}

pub fn dst_cmd(
    op: Op,
    dx: i32,
    dy: i32,
    wide: &[u32],
    high: &[u32],
    out: &mut [u8],
    at: usize,
) -> usize
    requires step { Step Dst dx dy }
    requires tables { Tables wide.now high.now }
    requires dy_in_bounds { at + length (dst_cmd op dx dy) ≤ length out.old }
    ensures { Puts out at result (dst_cmd op dx dy) }
{
    match op {
        Op::Stitch => put_move(0x03, dx, dy, wide, high, out, at),
        Op::Jump => put_move(0x83, dx, dy, wide, high, out, at),
        Op::Trim => put_trim(out, at),
        Op::ColorChange => put3(out, at, 0x00, 0x00, 0xC3),
        Op::End => put3(out, at, 0x00, 0x00, 0xF3),
    }
}

// VP3: numbers with the high byte first, texts, and the bytes of one command.
// A port of src/formats/more.rs of zigzag, changed.
#![tactic(auto)]

ghost use Rattle.std.specs.Prelude.{◌≡◌, ◌&&◌, map, [], ◌∷◌, ℕ, ◌+◌, ◌*◌, ◌≤◌, ◌<◌, pos, neg_ℤ, nat_abs, ◌*ℤ◌, length};
ghost use Rattle.rules.specs.Vocabulary.{between, bits_of, joined};
ghost use Rattle.rules.specs.Vp3.{big, toward_zero, hundred, text16, stitch_of, vp3_cmd, last_stitch};
ghost use Rattle.laws.specs.Buffers.{Puts};
ghost use Rattle.vp3_cmd.specs.Long.{long_of};

use emit::{low_byte, low16, put2, put4};
use rules::Op;

// A number in two bytes; what is past them is lost.
pub fn put_be16(out: &mut [u8], at: usize, v: usize) -> usize
    requires { at + 2 ≤ length out.old }
    ensures { Puts out at result (big 2 v) }
{
    let b = v.to_be_bytes();
    put2(out, at, b[6], b[7])
}

// A number in four bytes.
pub fn put_be32(out: &mut [u8], at: usize, v: u32) -> usize
    requires { at + 4 ≤ length out.old }
    ensures { Puts out at result (big 4 v) }
{
    let b = v.to_be_bytes();
    put4(out, at, b[0], b[1], b[2], b[3])
}

// A hundred times z, in 32 bits of two's complement.
fn hundred_bits(z: i32) -> u32
    requires { nat_abs z ≤ 65535 }
    ensures { result ≡ bits_of 31 (z *ℤ pos 100) }
{
    (z * 100).cast_unsigned()
}

pub fn put_hundred(out: &mut [u8], at: usize, z: i32) -> usize
    requires { (nat_abs z ≤ 65535) × (at + 4 ≤ length out.old) }
    ensures { Puts out at result (hundred z) }
{
    put_be32(out, at, hundred_bits(z))
}

// Half of z, rounded toward zero.
pub fn half(z: i32) -> i32
    requires { nat_abs z ≤ 131071 }
    ensures { (result ≡ toward_zero z 2) × (nat_abs result ≤ 65535) }
{
    if z < 0 {
        return 0 - (((0 - z) as u32) / 2) as i32;
    }
    ((z as u32) / 2) as i32
}

// The bytes of a text in UTF-16.
fn put_wide(out: &mut [u8], at: usize, text: &[u8]) -> usize
    requires { at + 2 * length text.now ≤ length out.old }
    ensures { Puts out at result (joined (map (λ (b : ℕ). 0x00 ∷ b ∷ []) text.now)) }
{
    let mut to = at;
    for b in text {
        to = put2(out, to, 0x00, *b);
    }
    to
}

// A text in UTF-16 behind its length.
pub fn put_text16(out: &mut [u8], at: usize, text: &[u8]) -> usize
    requires { (length text.now ≤ 32767) × (at + 2 + 2 * length text.now ≤ length out.old) }
    ensures { Puts out at result (text16 text.now) }
{
    let wide = put_be16(out, at, 2 * text.len());
    put_wide(out, wide, text)
}

// ---- commands

// Whether each step of a stitch fits a byte.
pub fn is_short(dx: i32, dy: i32) -> bool
    ensures { result ≡ (between (neg_ℤ (pos 127)) (pos 127) dx && between (neg_ℤ (pos 127)) (pos 127) dy) }
{
    if dx < -127 {
        return false;
    }
    if 127 < dx {
        return false;
    }
    if dy < -127 {
        return false;
    }
    dy <= 127
}

fn put_long(dx: i32, dy: i32, out: &mut [u8], at: usize) -> usize
    requires { (nat_abs dx ≤ 32767) × ((nat_abs dy ≤ 32767) × (at + 8 ≤ length out.old)) }
    ensures { Puts out at result (long_of dx dy) }
{
    let x = put2(out, at, 0x80, 0x01);
    let y = put_be16(out, x, low16(dx));
    let end = put_be16(out, y, low16(dy));
    put2(out, end, 0x80, 0x02)
}

pub fn put_stitch(dx: i32, dy: i32, out: &mut [u8], at: usize) -> usize
    requires { (nat_abs dx ≤ 32767) × ((nat_abs dy ≤ 32767) × (at + length (stitch_of dx dy) ≤ length out.old)) }
    ensures { Puts out at result (stitch_of dx dy) }
{
    if is_short(dx, dy) {
        return put2(out, at, low_byte(dx), low_byte(dy));
    }
    put_long(dx, dy, out, at)
}

// The bytes that a stitch takes.
pub fn stitch_len(dx: i32, dy: i32) -> usize
    ensures { (result ≡ length (stitch_of dx dy)) × (result ≤ 8) }
{
    if is_short(dx, dy) {
        return 2;
    }
    8
}

// A command of any kind: jumps and colour changes write nothing, a trim and the end 80 03.
pub fn put_cmd(op: Op, dx: i32, dy: i32, out: &mut [u8], at: usize) -> usize
    requires { (nat_abs dx ≤ 32767) × ((nat_abs dy ≤ 32767) × (at + length (vp3_cmd op dx dy) ≤ length out.old)) }
    ensures { Puts out at result (vp3_cmd op dx dy) }
{
    match op {
        Op::Stitch => put_stitch(dx, dy, out, at),
        Op::Jump | Op::ColorChange => at,
        Op::Trim | Op::End => put2(out, at, 0x80, 0x03),
    }
}

pub fn cmd_len(op: Op, dx: i32, dy: i32) -> usize
    ensures { (result ≡ length (vp3_cmd op dx dy)) × (result ≤ 8) }
{
    match op {
        Op::Stitch => stitch_len(dx, dy),
        Op::Jump | Op::ColorChange => 0,
        Op::Trim | Op::End => 2,
    }
}

// Where the last stitch was, once a command that leads from z to `to` is written.
pub fn last_stitch(op: Op, z: i32, to: i32) -> i32
    ensures { result ≡ last_stitch op z to }
{
    match op {
        Op::Stitch => to,
        Op::Jump | Op::Trim | Op::ColorChange | Op::End => z,
    }
}

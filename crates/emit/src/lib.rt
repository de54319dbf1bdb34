// Bytes, numbers and texts into a caller-provided buffer: each function puts its bytes from `at` on and answers the place behind them.
// A port of src/formats/pes.rs and src/formats/dst.rs of zigzag, changed.
#![tactic(auto)]

ghost use Rattle.std.specs.Prelude.{◌≡◌, ◌&&◌, [], ◌∷◌, ℕ, ◌+◌, ◌≤◌, ◌<◌, leb, ltb, nat_abs, ◌-ℤ◌, length, take, replicate};
ghost use Rattle.rules.specs.Vocabulary.{keep, bits_of, little, digit_at, padded, right};
ghost use Rattle.laws.specs.Buffers.{Puts};

use geom::span;

pub fn put(out: &mut [u8], at: usize, a: u8) -> usize
    requires { at + 1 ≤ length out.old }
    ensures { Puts out at result (a ∷ []) }
{
    out[at] = a;
    at + 1
}

pub fn put2(out: &mut [u8], at: usize, a: u8, b: u8) -> usize
    requires { at + 2 ≤ length out.old }
    ensures { Puts out at result (a ∷ b ∷ []) }
{
    out[at] = a;
    out[at + 1] = b;
    at + 2
}

pub fn put3(out: &mut [u8], at: usize, a: u8, b: u8, c: u8) -> usize
    requires { at + 3 ≤ length out.old }
    ensures { Puts out at result (a ∷ b ∷ c ∷ []) }
{
    out[at] = a;
    out[at + 1] = b;
    out[at + 2] = c;
    at + 3
}

pub fn put4(out: &mut [u8], at: usize, a: u8, b: u8, c: u8, d: u8) -> usize
    requires { at + 4 ≤ length out.old }
    ensures { Puts out at result (a ∷ b ∷ c ∷ d ∷ []) }
{
    out[at] = a;
    out[at + 1] = b;
    out[at + 2] = c;
    out[at + 3] = d;
    at + 4
}

// A number in four bytes, the low byte first.
pub fn put_word(out: &mut [u8], at: usize, v: u32) -> usize
    requires { at + 4 ≤ length out.old }
    ensures { Puts out at result (little 4 v) }
{
    let b = v.to_le_bytes();
    put4(out, at, b[0], b[1], b[2], b[3])
}

// A number in three bytes, the low byte first; what is past them is lost.
pub fn put_three(out: &mut [u8], at: usize, v: u32) -> usize
    requires { at + 3 ≤ length out.old }
    ensures { Puts out at result (little 3 v) }
{
    let b = v.to_le_bytes();
    put3(out, at, b[0], b[1], b[2])
}

// A number in two bytes, the low byte first; what is past them is lost.
pub fn put_short(out: &mut [u8], at: usize, v: usize) -> usize
    requires { at + 2 ≤ length out.old }
    ensures { Puts out at result (little 2 v) }
{
    let b = v.to_le_bytes();
    put2(out, at, b[0], b[1])
}

// A small number in two's complement.
pub fn low_byte(z: i32) -> u8
    requires { nat_abs z ≤ 127 }
    ensures { result ≡ bits_of 7 z }
{
    (z as i8).cast_unsigned()
}

// The same in 16 bits.
pub fn low16(z: i32) -> usize
    requires { nat_abs z ≤ 32767 }
    ensures { result ≡ bits_of 15 z }
{
    (z as i16).cast_unsigned() as usize
}

pub fn put_text(out: &mut [u8], at: usize, text: &[u8]) -> usize
    requires { at + length text.now ≤ length out.old }
    ensures { Puts out at result text.now }
{
    let mut to = at;
    for b in text {
        to = put(out, to, *b);
    }
    to
}

// The same byte n times.
pub fn put_times(out: &mut [u8], at: usize, a: u8, n: usize) -> usize
    requires { at + n ≤ length out.old }
    ensures { Puts out at result (replicate n a) }
{
    let end = at + n;
    out[at..end].fill(a);
    end
}

// Whether a byte is from `low` to before `high`.
fn stays(b: u8, low: u8, high: u8) -> bool
    ensures { result ≡ (leb low b && ltb b high) }
{
    low <= b && b < high
}

// Of a name the first `most` bytes that are from `low` to before `high`, filled with blanks to 16 bytes.
pub fn put_name(name: &[u8], low: u8, high: u8, most: usize, out: &mut [u8], at: usize) -> usize
    requires { (most ≤ 16) × (at + 16 ≤ length out.old) }
    ensures { Puts out at result (padded 16 (take most (keep (λ (b : ℕ). leb low b && ltb b high) name.now))) }
{
    let fill = 16 - most;
    let mut left = most;
    let mut to = at;
    for b in name {
        if left == 0 {
            return put_times(out, to, 0x20, fill);
        }
        if !stays(*b, low, high) {
            continue;
        }
        to = put(out, to, *b);
        left -= 1;
    }
    put_times(out, to, 0x20, fill + left)
}

const POWERS: [u32; 10] = [
    1, 10, 100, 1000, 10000, 100000, 1000000, 10000000, 100000000, 1000000000,
];

// Digit k of v, counted from the right, as a character; a blank where v has no such digit.
fn digit_at(k: usize, v: u32) -> u8
    requires { k < 10 }
    ensures { result ≡ digit_at k v }
{
    if k == 0 {
        return 0x30 + (v % 10) as u8;
    }
    let p = POWERS[k];
    if v < p {
        return 0x20;
    }
    0x30 + (v / p % 10) as u8
}

// A number in decimal, right-aligned in n columns.
// Kept by hand: no clause of a formatter tells the bytes, and `right n v` does.
pub fn put_right(out: &mut [u8], at: usize, n: usize, v: u32) -> usize
    requires { (n ≤ 10) × (at + n ≤ length out.old) }
    ensures { Puts out at result (right n v) }
{
    let mut to = at;
    for k in (0..n).rev() {
        to = put(out, to, digit_at(k, v));
    }
    to
}

// How far a number is from 0.
pub fn size(z: i64) -> u32
    requires { nat_abs z ≤ 4294967295 }
    ensures { result ≡ nat_abs z }
{
    z.unsigned_abs() as u32
}

// How far apart two numbers are.
pub fn spread(a: i32, b: i32) -> u32
    ensures { result ≡ nat_abs (b -ℤ a) }
{
    size(span(a, b))
}

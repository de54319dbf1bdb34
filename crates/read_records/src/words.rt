// PEC records by whole words, so that the loops over them need few tests.
// A port of src/formats/read.rs of zigzag, changed.
ghost use Rattle.std.specs.Prelude.{◌≡◌, ◌&&◌, ◌+◌, ◌*◌, ◌/◌, ◌%◌, ◌≤◌, ◌<◌, pos, length};
ghost use Rattle.rules.specs.Vocabulary.{pick};
ghost use Rattle.read_records.specs.Tables.{PecSteps};
ghost use Rattle.read_records.specs.Words.{four_at, eight_at, past_step, axis_step, first_part, plain_step, masked};

use crate::bytes::{signed7, signed12};

// Four bytes as one number, the first lowest. By hand, as is `eight`: the loops over records read so, and keep their machine code.
pub fn four(file: &[u8], at: usize) -> u32
    requires { at + 4 ≤ length file.now }
    ensures { result ≡ four_at file.now at }
{
    let a = file[at] as u32;
    let b = file[at + 1] as u32;
    let c = file[at + 2] as u32;
    let d = file[at + 3] as u32;
    a + 256 * b + 65536 * c + 16777216 * d
}

pub fn eight(file: &[u8], at: usize) -> u64
    requires { at + 8 ≤ length file.now }
    ensures { result ≡ eight_at file.now at }
{
    let low = four(file, at) as u64;
    let high = four(file, at + 4) as u64;
    low + 4294967296 * high
}

// What follows the step that stands lowest. Both answers are ready before it is known which one holds.
pub fn past(w: u32) -> u32
    ensures { result ≡ past_step w }
{
    let short = w / 256;
    let long = w / 65536;
    if w % 256 < 128 {
        return short;
    }
    long
}

// 1 where the step that stands lowest has two bytes.
pub fn top(w: u32) -> usize
    ensures { result ≡ w / 128 % 2 }
{
    (w / 128 % 2) as usize
}

// What the first byte of a step adds to it.
fn first_part(a: u8) -> i32
    ensures { result ≡ first_part a }
{
    if a < 128 {
        return signed7(a);
    }
    signed12((a as u16) % 16 * 256)
}

// 1 where a step that begins with a says no jump, else 0.
fn plain(a: u8) -> i32
    ensures { result ≡ pick (plain_step a) (pos 1) (pos 0) }
{
    if a < 128 {
        return 1;
    }
    if a / 16 % 4 == 0 {
        return 1;
    }
    0
}

// Both of each byte, for the loops, which are passed it.
pub fn pec_steps() -> [i32; 512]
    ensures { PecSteps result }
{
    let mut steps = [0i32; 512];
    for n in 0..256 {
        steps[n] = first_part(n as u8);
        steps[256 + n] = plain(n as u8);
    }
    steps
}

// `first_part` by the table: the whole of a step of one byte.
pub fn first_of(steps: &[i32], a: u8) -> i32
    requires { PecSteps steps.now }
    ensures { result ≡ first_part a }
{
    steps[a as usize]
}

// A step that begins with a, and goes on with b where it has two bytes.
pub fn pec_step(steps: &[i32], a: u8, b: u8) -> i32
    requires { PecSteps steps.now }
    ensures { result ≡ axis_step a b }
{
    first_of(steps, a) + ((a / 128) as i32) * (b as i32)
}

// The step that stands lowest.
pub fn step_of(steps: &[i32], w: u32) -> i32
    requires { PecSteps steps.now }
    ensures { result ≡ axis_step (w % 256) (w / 256 % 256) }
{
    pec_step(steps, (w % 256) as u8, (w / 256 % 256) as u8)
}

// The jump bits of a step that begins with a, 0 where it has one byte.
fn mark(a: u32) -> u32
    requires { a < 256 }
    ensures { result ≡ a / 128 * (a / 16 % 4) }
{
    (a / 128) * (a / 16 % 4)
}

// Whether neither of two steps says jump.
pub fn sews(w: u32, y: u32) -> bool
    ensures { result ≡ (plain_step (w % 256) && plain_step (y % 256)) }
{
    mark(w % 256) + mark(y % 256) == 0
}

// The same by the table.
pub fn sews_by(steps: &[i32], w: u32, y: u32) -> bool
    requires { PecSteps steps.now }
    ensures { result ≡ (plain_step (w % 256) && plain_step (y % 256)) }
{
    steps[256 + (w % 256) as usize] * steps[256 + (y % 256) as usize] == 1
}

// Whether two stitches come first whose steps have one byte each.
pub fn two_short(v: u64) -> bool
    ensures { result ≡ masked 0x80808080 0 v }
{
    v & 0x80808080 == 0
}

// Two stitches whose steps have two bytes each.
pub fn two_long(v: u64) -> bool
    ensures { result ≡ masked 0x00B000B000B000B0 0x0080008000800080 v }
{
    v & 0x00B000B000B000B0 == 0x0080008000800080
}

// Two stitches whose steps have one byte and two by turns.
pub fn short_long(v: u64) -> bool
    ensures { result ≡ masked 0x000000B08000B080 0x0000008000008000 v }
{
    v & 0x000000B08000B080 == 0x0000008000008000
}

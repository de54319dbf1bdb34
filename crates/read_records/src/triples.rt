// DST records, three bytes each. Each axis has five pairs of bits; docs/RULES.md has the chart of them.
// A port of src/formats/read.rs of zigzag, changed.
ghost use Rattle.std.specs.Prelude.{◌≡◌, true, false, ◌/◌, ◌%◌, ◌<◌, drop};
ghost use Rattle.rules.specs.Dst.{dst_x, dst_y, dst_record, dst_first};
ghost use Rattle.read_records.specs.Digits.{pair_digit, dst_step, axis_bits};
ghost use Rattle.read_records.specs.Tables.{DstSteps};

use rules::Record;

// The digit of a pair of bits, by cases: neither or both, plus, minus.
fn digit(byte: u8, plus: u8, minus: u8) -> i32
    requires { (0 < plus) × (0 < minus) }
    ensures { result ≡ pair_digit (byte / plus % 2) (byte / minus % 2) }
{
    let p = byte / plus % 2;
    let m = byte / minus % 2;
    if p == m {
        return 0;
    }
    if p == 1 {
        return 1;
    }
    -1
}

// A line for each pair of the chart: byte, plus, minus, weight.
fn x_step(a: u8, b: u8, c: u8) -> i32
    ensures { result ≡ dst_x a b c }
{
    digit(c, 0x04, 0x08) * 81
        + digit(b, 0x04, 0x08) * 27
        + digit(a, 0x04, 0x08) * 9
        + digit(b, 0x01, 0x02) * 3
        + digit(a, 0x01, 0x02)
}

// The chart's y goes up, ours down.
fn y_step(a: u8, b: u8, c: u8) -> i32
    ensures { result ≡ dst_y a b c }
{
    let up = digit(c, 0x20, 0x10) * 81
        + digit(b, 0x20, 0x10) * 27
        + digit(a, 0x20, 0x10) * 9
        + digit(b, 0x80, 0x40) * 3
        + digit(a, 0x80, 0x40);
    0 - up
}

// Along x, or along y.
fn dst_step(y: bool, a: u8, b: u8, c: u8) -> i32
    ensures { result ≡ dst_step y a b c }
{
    if y {
        return y_step(a, b, c);
    }
    x_step(a, b, c)
}

// Four bits of a byte as they stand in it: x has the low four of each byte, y the high four.
fn axis_bits(y: bool, n: u8) -> u8
    requires { n < 16 }
    ensures { result ≡ axis_bits y n }
{
    if y {
        return n * 16;
    }
    n
}

// A cache of the cases for a loop, which is passed it: what the four bits of an axis add to a step in the first byte, then in the second,
// then in the third.
pub fn dst_steps(y: bool) -> [i32; 48]
    ensures { DstSteps y result }
{
    let mut steps = [0i32; 48];
    for n in 0..16 {
        let bits = axis_bits(y, n as u8);
        steps[n] = dst_step(y, bits, 0, 0);
        steps[16 + n] = dst_step(y, 0, bits, 0);
        steps[32 + n] = dst_step(y, 0, 0, bits);
    }
    steps
}

// `x_step` by the cache.
pub fn dst_dx(steps: &[i32], a: u8, b: u8, c: u8) -> i32
    requires { DstSteps false steps.now }
    ensures { result ≡ dst_x a b c }
{
    steps[(a % 16) as usize] + steps[16 + (b % 16) as usize] + steps[32 + (c % 16) as usize]
}

// `y_step` by the cache.
pub fn dst_dy(steps: &[i32], a: u8, b: u8, c: u8) -> i32
    requires { DstSteps true steps.now }
    ensures { result ≡ dst_y a b c }
{
    steps[(a / 16) as usize] + steps[16 + (b / 16) as usize] + steps[32 + (c / 16) as usize]
}

// The third byte, tested in the order of `read_dst`: end, colour change, jump.
#[tactic(auto, unfolding(rules::specs::Dst::dst_record, rules::specs::Dst::under))]
fn kind(c: u8, dx: i32, dy: i32) -> Record
    ensures { result ≡ dst_record c dx dy }
{
    if c & 0xF3 == 0xF3 {
        return Record::Finish;
    }
    if c & 0xC3 == 0xC3 {
        return Record::ChangeBy { dx, dy, len: 3 };
    }
    if c & 0x83 == 0x83 {
        return Record::JumpBy { dx, dy, len: 3 };
    }
    Record::StitchBy { dx, dy, len: 3 }
}

// `read_dst`, one record of it.
pub fn dst_record(file: &[u8], at: usize) -> Record
    ensures { result ≡ dst_first (drop at file.now) }
{
    if file.len() < 3 {
        return Record::Finish;
    }
    if file.len() - 3 < at {
        return Record::Finish;
    }
    let a = file[at];
    let b = file[at + 1];
    let c = file[at + 2];
    kind(c, x_step(a, b, c), y_step(a, b, c))
}

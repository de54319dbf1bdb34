// What stands at a place of the stitches of a block.
ghost use Rattle.std.specs.Prelude.{◌≡◌, ◌+◌, ◌≤◌, length, take, drop};
ghost use Rattle.rules.specs.Vocabulary.{signed};
ghost use Rattle.rules.specs.Vp3.{from_big};
ghost use Rattle.read_vp3_stitches.specs.Steps.{long_of, StepAt};

use read_records::bytes::{s8, signed16};

// A stitch by (dx, dy) in so many bytes; an 80 pair that ends the run, or that does nothing; or nothing more.
#[derive(Clone, Copy)]
pub enum Step {
    Stitch { dx: i32, dy: i32, len: usize },
    EndRun,
    Nothing,
    Finish,
}

// 16 bits in two's complement, the high byte first.
fn s16(bytes: &[u8], at: usize) -> i32
    requires { at + 2 ≤ length bytes.now }
    ensures { result ≡ signed 15 (from_big (take 2 (drop at bytes.now))) }
{
    let n = 256 * (bytes[at] as u32) + (bytes[at + 1] as u32);
    signed16(n)
}

// 80 01: a stitch of two 16-bit steps, if they are there.
fn long_at(bytes: &[u8], at: usize) -> Step
    requires { at + 2 ≤ length bytes.now }
    ensures { result ≡ long_of at bytes.now }
{
    if bytes.len() - at < 6 {
        return Step::Finish;
    }
    Step::Stitch {
        dx: s16(bytes, at + 2),
        dy: s16(bytes, at + 4),
        len: 6,
    }
}

// From byte `at` on; `Finish` from the last byte on.
pub fn step_at(bytes: &[u8], at: usize) -> Step
    requires { at ≤ length bytes.now }
    ensures { StepAt bytes.now at result }
{
    if bytes.len() - at < 2 {
        return Step::Finish;
    }
    if bytes[at] != 0x80 {
        return Step::Stitch {
            dx: s8(bytes[at]),
            dy: s8(bytes[at + 1]),
            len: 2,
        };
    }
    let c = bytes[at + 1];
    if c == 0x01 {
        return long_at(bytes, at);
    }
    if c == 0x03 {
        return Step::EndRun;
    }
    Step::Nothing
}

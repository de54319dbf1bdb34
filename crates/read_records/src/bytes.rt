// Two's complement without a test of the sign: half the range is added, and taken away after the remainder.
// By hand, since the library's `cast_signed` tests it, and these run once for each step.
// A port of src/formats/read.rs of zigzag, changed.
ghost use Rattle.std.specs.Prelude.{◌≡◌, ◌<◌, neg_ℤ};
ghost use Rattle.rules.specs.Vocabulary.{signed};

// 7 bits, the short form of a PEC step.
pub fn signed7(b: u8) -> i32
    requires { b < 128 }
    ensures { result ≡ signed 6 b }
{
    ((b + 64) % 128) as i32 - 64
}

// 8 bits, a byte of EXP or JEF.
pub fn s8(b: u8) -> i32
    ensures { result ≡ signed 7 b }
{
    (((b as u32) + 128) % 256) as i32 - 128
}

// EXP and JEF store y negated.
pub fn minus8(b: u8) -> i32
    ensures { result ≡ neg_ℤ (signed 7 b) }
{
    0 - s8(b)
}

// 12 bits, the long form of a PEC step.
pub fn signed12(v: u16) -> i32
    requires { v < 4096 }
    ensures { result ≡ signed 11 v }
{
    ((v + 2048) % 4096) as i32 - 2048
}

// 16 bits, a long step of VP3 or a place of a job.
pub fn signed16(n: u32) -> i32
    requires { n < 65536 }
    ensures { result ≡ signed 15 n }
{
    ((n + 32768) % 65536) as i32 - 32768
}

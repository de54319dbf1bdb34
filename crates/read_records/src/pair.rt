// EXP records, and those of JEF from its offset: bytes x and -y, or 80, a control and two bytes more.
// A port of src/formats/read.rs of zigzag, changed.
ghost use Rattle.std.specs.Prelude.{◌≡◌, eqb, pos, neg_ℤ, drop};
ghost use Rattle.rules.specs.Exp.{two, control, pair_first};
ghost use Rattle.rules.specs.Vocabulary.{pick, signed};
ghost use Rattle.read_records.specs.Firsts.{pair_row};
ghost use Rattle.read_records.specs.Tables.{Kinds};

use crate::Row;
use crate::bytes::{minus8, s8};
use rules::Record;

// Control 02: EXP sews, JEF jumps.
fn second(jef: bool, dx: i32, dy: i32) -> Record
    ensures { result ≡ two jef dx dy }
{
    if jef {
        return Record::JumpBy { dx, dy, len: 4 };
    }
    Record::StitchBy { dx, dy, len: 4 }
}

// The other controls; an unknown one ends the reading.
fn controlled(jef: bool, c: u8, dx: i32, dy: i32) -> Record
    ensures { result ≡ control jef c dx dy }
{
    if c == 0x80 {
        return Record::JumpBy {
            dx: 0,
            dy: 0,
            len: 4,
        };
    }
    if c == 1 {
        return Record::ChangeBy { dx, dy, len: 4 };
    }
    if c == 2 {
        return second(jef, dx, dy);
    }
    if c == 4 {
        return Record::JumpBy { dx, dy, len: 4 };
    }
    Record::Finish
}

// What each control does: 0 sews, 1 jumps, 2 changes colour, 3 ends.
pub fn kinds(jef: bool) -> [u8; 256]
    ensures { Kinds jef result }
{
    let mut t = [3u8; 256];
    t[0x80] = 1;
    t[1] = 2;
    t[2] = 0;
    if jef {
        t[2] = 1;
    }
    t[4] = 1;
    t
}

// The step of control c on each axis; 80 moves nothing.
pub fn step_x(c: u8, b: u8) -> i32
    ensures { result ≡ pick (eqb c 0x80) (pos 0) (signed 7 b) }
{
    let dx = s8(b);
    if c == 0x80 {
        return 0;
    }
    dx
}

pub fn step_y(c: u8, b: u8) -> i32
    ensures { result ≡ pick (eqb c 0x80) (pos 0) (neg_ℤ (signed 7 b)) }
{
    let dy = minus8(b);
    if c == 0x80 {
        return 0;
    }
    dy
}

// The row of EXP or of JEF.
pub fn row_of(jef: bool) -> Row
    ensures { result ≡ pair_row jef }
{
    if jef {
        return Row::Jef;
    }
    Row::Exp
}

// `read_exp_like`, one record of it.
pub fn exp_record(jef: bool, file: &[u8], at: usize) -> Record
    ensures { result ≡ pair_first jef (drop at file.now) }
{
    if file.len() < 2 {
        return Record::Finish;
    }
    if file.len() - 2 < at {
        return Record::Finish;
    }
    let a = file[at];
    let b = file[at + 1];
    if a != 0x80 {
        return Record::StitchBy {
            dx: s8(a),
            dy: minus8(b),
            len: 2,
        };
    }
    if file.len() - at < 4 {
        return Record::Finish;
    }
    if b == 0x10 {
        return Record::Finish;
    }
    controlled(jef, b, s8(file[at + 2]), minus8(file[at + 3]))
}

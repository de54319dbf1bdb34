// PEC records: FF 00, FE B0 and a byte, or two steps, x then y.
// A port of src/formats/read.rs of zigzag, changed.
ghost use Rattle.std.specs.Prelude.{◌≡◌, ltb, pos, drop};
ghost use Rattle.rules.specs.Vocabulary.{pick};
ghost use Rattle.rules.specs.Pec.{axis_of, pec_first};
ghost use Rattle.rules.specs.declared.Record.TheVariants.{StitchBy, JumpBy, ChangeBy, Finish};
ghost use Rattle.read_records.specs.Axes.{axis_from};

use crate::bytes::{signed7, signed12};
use rules::Record;

// A step of 1 or 2 bytes, and whether it says jump (0x10 or 0x20 in the first of two); `Missing` where the file ends first.
#[derive(Clone, Copy)]
pub enum Axis {
    Step { marked: bool, step: i32, len: usize },
    Missing,
}

// A top bit that is set makes a step two bytes.
fn step_at(file: &[u8], at: usize) -> Axis
    ensures { axis_from result ≡ axis_of (drop at file.now) }
{
    if file.len() <= at {
        return Axis::Missing;
    }
    let a = file[at];
    if a < 128 {
        return Axis::Step {
            marked: false,
            step: signed7(a),
            len: 1,
        };
    }
    if file.len() - at < 2 {
        return Axis::Missing;
    }
    let b = file[at + 1];
    Axis::Step {
        marked: a / 16 % 4 != 0,
        step: signed12((a as u16) % 16 * 256 + (b as u16)),
        len: 2,
    }
}

// Both steps as a record.
fn pair_of(marked: bool, dx: i32, dy: i32, len: usize) -> Record
    ensures { result ≡ pick marked (JumpBy dx dy len) (StitchBy dx dy len) }
{
    if marked {
        return Record::JumpBy { dx, dy, len };
    }
    Record::StitchBy { dx, dy, len }
}

// FE B0 is a colour change only with the byte after it.
fn change(left: usize) -> Record
    ensures { result ≡ pick (ltb left 3) Finish (ChangeBy (pos 0) (pos 0) 3) }
{
    if left < 3 {
        return Record::Finish;
    }
    Record::ChangeBy {
        dx: 0,
        dy: 0,
        len: 3,
    }
}

// `read_pec`, one record of it.
pub fn pec_record(file: &[u8], at: usize) -> Record
    ensures { result ≡ pec_first (drop at file.now) }
{
    if file.len() < 2 {
        return Record::Finish;
    }
    if file.len() - 2 < at {
        return Record::Finish;
    }
    let two = (file[at] as u16) * 256 + (file[at + 1] as u16);
    if two == 0xFF00 {
        return Record::Finish;
    }
    if two == 0xFEB0 {
        return change(file.len() - at);
    }
    let Axis::Step {
        marked: x_marked,
        step: dx,
        len: x_len,
    } = step_at(file, at)
    else {
        return Record::Finish;
    };
    let Axis::Step {
        marked: y_marked,
        step: dy,
        len: y_len,
    } = step_at(file, at + x_len)
    else {
        return Record::Finish;
    };
    pair_of(x_marked | y_marked, dx, dy, x_len + y_len)
}

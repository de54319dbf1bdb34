// What stands at a place of a file: the record there, in each format that is a row of records.
// A port of src/formats/read.rs of zigzag, changed.
#![tactic(auto)]

pub mod bytes;
pub mod pair;
pub mod steps;
pub mod triples;
pub mod words;

ghost use Rattle.std.specs.Prelude.{◌≡◌, drop};
ghost use Rattle.read_records.specs.Firsts.{first_record_of};

use crate::pair::exp_record;
use crate::steps::pec_record;
use crate::triples::dst_record;
use rules::Record;

// The formats whose files are a row of records; PES has PEC's.
#[derive(Clone, Copy)]
pub enum Row {
    Pec,
    Dst,
    Exp,
    Jef,
}

// One record, from byte `at` of the stitches; `Finish` from their end on.
// Kept as a match: four arms of closed kinds, and one equation.
pub fn record_at(f: Row, file: &[u8], at: usize) -> Record
    ensures { result ≡ first_record_of f (drop at file.now) }
{
    match f {
        Row::Pec => pec_record(file, at),
        Row::Dst => dst_record(file, at),
        Row::Exp => exp_record(false, file, at),
        Row::Jef => exp_record(true, file, at),
    }
}

// The first pass over the records: how much the answers hold. No place is kept, so a few numbers are enough. Each format has a loop of
// its own, whose turn passes one record or a few at once; what is left is counted record by record.
// A port of src/formats/read.rs of zigzag, changed.
#![tactic(auto)]

pub mod pairs;
pub mod steps;
pub mod tally;
pub mod triples;

ghost use Rattle.std.specs.Prelude.{◌≤◌, length};
ghost use Rattle.read_records.specs.Firsts.{first_record_of};
ghost use Rattle.read_passes.specs.Told.{Sized};

use crate::pairs::count_pairs;
use crate::steps::count_steps;
use crate::triples::count_triples;
use read_passes::Sizes;
use read_records::Row;

// Kept as a match: four arms of closed kinds, and one equation.
pub fn count(f: Row, bytes: &[u8]) -> Sizes
    requires { length bytes.now ≤ 2097152 }
    ensures { Sized (first_record_of f) bytes.now result }
{
    match f {
        Row::Pec => count_steps(bytes),
        Row::Dst => count_triples(bytes),
        Row::Exp => count_pairs(false, bytes),
        Row::Jef => count_pairs(true, bytes),
    }
}

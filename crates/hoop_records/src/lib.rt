// Whether all places of the records of a file are in a hoop. Each format has a loop of its own, whose turn looks at one record or a few
// at once; what is left is looked at record by record. The first place outside ends the look.
#![tactic(auto)]

pub mod looks;
pub mod pairs;
pub mod rest;
pub mod steps;
pub mod triples;

ghost use Rattle.std.specs.Prelude.{◌≡◌, ◌≤◌, length};
ghost use Rattle.rules.specs.Hoop.{all_in_hoop};
ghost use Rattle.read_records.specs.Firsts.{first_record_of};
ghost use Rattle.read_passes.specs.Told.{places_in};

use crate::pairs::fits_pairs;
use crate::steps::fits_steps;
use crate::triples::fits_triples;
use read_records::Row;
use rules::Hoop;

pub fn fits_records(f: Row, h: Hoop, bytes: &[u8]) -> bool
    requires { length bytes.now ≤ 2097152 }
    ensures { result ≡ all_in_hoop h (places_in (first_record_of f) bytes.now) }
{
    match f {
        Row::Pec => fits_steps(h, bytes),
        Row::Dst => fits_triples(h, bytes),
        Row::Exp => fits_pairs(false, h, bytes),
        Row::Jef => fits_pairs(true, h, bytes),
    }
}

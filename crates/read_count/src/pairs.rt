// EXP and JEF: two stitches, or one record, in a turn.
// A port of src/formats/read.rs of zigzag, changed.
ghost use Rattle.std.specs.Prelude.{◌≡◌, Bool, ◌+◌, ◌≤◌, ◌<◌, length, get_or};
ghost use Rattle.read_records.specs.Firsts.{first_record_of, pair_row};
ghost use Rattle.read_records.specs.Tables.{Kinds};
ghost use Rattle.read_passes.specs.Told.{Sized};
ghost use Rattle.read_count.specs.Tallies.{Tallying};

use crate::tally::{Passed, Tally, count_rest, none, tally_change, tally_many, tally_one};
use read_passes::{Sizes, last_turn};
use read_records::pair::{kinds, row_of};

// A control.
fn pass_control(jef: bool, t: Tally, table: &[u8], bytes: &[u8], at: usize) -> Passed
    requires at_in_bounds { at + 4 ≤ length bytes.now }
    requires at_value { get_or bytes.now at 0 ≡ 0x80 }
    requires kinds { Kinds jef table.now }
    requires tallying { Tallying (pair_row jef) bytes.now t at }
    ensures tallying_2 { Tallying (pair_row jef) bytes.now result.t result.at }
    ensures at_lt_at { at < result.at }
{
    let k = table[bytes[at + 1] as usize];
    if k == 1 {
        return Passed {
            t: tally_one(t, 0),
            at: at + 4,
        };
    }
    if k == 2 {
        return Passed {
            t: tally_change(t),
            at: at + 4,
        };
    }
    if k == 0 {
        return Passed {
            t: tally_one(t, 1),
            at: at + 4,
        };
    }
    Passed { t, at: bytes.len() }
}

fn pass_pair(jef: bool, t: Tally, table: &[u8], bytes: &[u8], at: usize) -> Passed
    requires at_in_bounds { at + 4 ≤ length bytes.now }
    requires kinds { Kinds jef table.now }
    requires tallying { Tallying (pair_row jef) bytes.now t at }
    ensures tallying_2 { Tallying (pair_row jef) bytes.now result.t result.at }
    ensures at_lt_at { at < result.at }
{
    if bytes[at] == 0x80 {
        return pass_control(jef, t, table, bytes, at);
    }
    if bytes[at + 2] == 0x80 {
        return Passed {
            t: tally_one(t, 1),
            at: at + 2,
        };
    }
    Passed {
        t: tally_many(t, 2),
        at: at + 4,
    }
}

pub fn count_pairs(jef: bool, bytes: &[u8]) -> Sizes
    requires { length bytes.now ≤ 2097152 }
    ensures { Sized (first_record_of (pair_row jef)) bytes.now result }
{
    let table = kinds(jef);
    let mut t = none();
    let mut at: usize = 0;
    let end = last_turn(bytes.len(), 4);
    // Kept as while: each turn goes on by its record's own length.
    while at < end {
        let p = pass_pair(jef, t, &table, bytes, at);
        t = p.t;
        at = p.at;
    }
    count_rest(row_of(jef), bytes, at, t)
}

// DST: four stitches, or one record, in a turn.
// A port of src/formats/read.rs of zigzag, changed.
ghost use Rattle.std.specs.Prelude.{◌≡◌, ◌+◌, ◌≤◌, ◌<◌, length};
ghost use Rattle.rules.specs.Dst.{dst_first, under};
ghost use Rattle.rules.specs.Vocabulary.{pick};
ghost use Rattle.read_records.specs.declared.Row.TheVariants.{Dst};
ghost use Rattle.read_records.specs.Firsts.{first_record_of};
ghost use Rattle.read_passes.specs.Told.{Sized};
ghost use Rattle.read_count.specs.Tallies.{Tallying};

use crate::tally::{Passed, Tally, count_rest, none, tally_change, tally_many, tally_one};
use read_passes::{Sizes, last_turn};
use read_records::Row;

// 1 for a stitch, 0 for a jump or a colour change.
fn sews(c: u8) -> u32
    ensures { result ≡ pick (under 0x83 c) 0 1 }
{
    if c & 0x83 == 0x83 {
        return 0;
    }
    1
}

fn pass_triple(t: Tally, bytes: &[u8], at: usize) -> Passed
    requires at_in_bounds { at + 12 ≤ length bytes.now }
    requires tallying { Tallying Dst bytes.now t at }
    ensures tallying_2 { Tallying Dst bytes.now result.t result.at }
    ensures at_lt_at { at < result.at }
{
    let c = bytes[at + 2];
    if (c | bytes[at + 5] | bytes[at + 8] | bytes[at + 11]) < 128 {
        return Passed {
            t: tally_many(t, 4),
            at: at + 12,
        };
    }
    if c & 0xF3 == 0xF3 {
        return Passed { t, at: bytes.len() };
    }
    if c & 0xC3 == 0xC3 {
        return Passed {
            t: tally_change(t),
            at: at + 3,
        };
    }
    Passed {
        t: tally_one(t, sews(c)),
        at: at + 3,
    }
}

pub fn count_triples(bytes: &[u8]) -> Sizes
    requires { length bytes.now ≤ 2097152 }
    ensures { Sized (first_record_of Dst) bytes.now result }
{
    let mut t = none();
    let mut at: usize = 0;
    let end = last_turn(bytes.len(), 12);
    // Kept as while: each turn goes on by its record's own length.
    while at < end {
        let p = pass_triple(t, bytes, at);
        t = p.t;
        at = p.at;
    }
    count_rest(Row::Dst, bytes, at, t)
}

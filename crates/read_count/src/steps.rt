// PES and PEC: two stitches of one kind, a row of jumps, or one record, in a turn.
// A port of src/formats/read.rs of zigzag, changed.
ghost use Rattle.std.specs.Prelude.{◌≡◌, ℕ, ◌+◌, ◌≤◌, ◌<◌, length};
ghost use Rattle.read_records.specs.declared.Row.TheVariants.{Pec};
ghost use Rattle.read_records.specs.Firsts.{first_record_of};
ghost use Rattle.read_records.specs.Words.{four_at};
ghost use Rattle.read_passes.specs.Told.{Sized};
ghost use Rattle.read_count.specs.Tallies.{Tallying, Jumps};

use crate::tally::{Passed, Tally, count_rest, none, tally_change, tally_many, tally_one};
use read_passes::{Sizes, last_turn};
use read_records::Row;
use read_records::words::{eight, four, past, sews, short_long, top, two_long, two_short};

// Passes the jumps that stand at `from`, as long as they begin before `end` and with a byte below FE.
fn pass_jumps(bytes: &[u8], from: usize, end: usize) -> usize
    requires bytes_len_bound { length bytes.now ≤ 2097152 }
    requires by_index { (at : ℕ) → at < end → at + 8 ≤ length bytes.now }
    ensures jumps { Jumps Pec bytes.now from result }
    ensures lower_bound { from ≤ result }
{
    let mut at = from;
    // Kept as while: each turn goes on by its record's own length.
    while at < end {
        let w = four(bytes, at);
        let y = past(w);
        if 0xFE <= w % 256 {
            return at;
        }
        if sews(w, y) {
            return at;
        }
        at = at + 2 + top(w) + top(y);
    }
    at
}

// One record, or a row of jumps; w are its first four bytes.
fn pass_word(t: Tally, bytes: &[u8], at: usize, w: u32, end: usize) -> Passed
    requires at_lt_end { at < end }
    requires by_index { (at : ℕ) → at < end → at + 8 ≤ length bytes.now }
    requires w_value { w ≡ four_at bytes.now at }
    requires tallying { Tallying Pec bytes.now t at }
    ensures tallying_2 { Tallying Pec bytes.now result.t result.at }
    ensures at_lt_at { at < result.at }
{
    if w % 65536 == 0xB0FE {
        return Passed {
            t: tally_change(t),
            at: at + 3,
        };
    }
    if w % 65536 == 0x00FF {
        return Passed { t, at: bytes.len() };
    }
    let y = past(w);
    let next = at + 2 + top(w) + top(y);
    if sews(w, y) {
        return Passed {
            t: tally_one(t, 1),
            at: next,
        };
    }
    Passed {
        t: tally_one(t, 0),
        at: pass_jumps(bytes, next, end),
    }
}

fn pass_steps(t: Tally, bytes: &[u8], at: usize, end: usize) -> Passed
    requires at_lt_end { at < end }
    requires by_index { (at : ℕ) → at < end → at + 8 ≤ length bytes.now }
    requires tallying { Tallying Pec bytes.now t at }
    ensures tallying_2 { Tallying Pec bytes.now result.t result.at }
    ensures at_lt_at { at < result.at }
{
    let v = eight(bytes, at);
    if two_short(v) {
        return Passed {
            t: tally_many(t, 2),
            at: at + 4,
        };
    }
    if two_long(v) {
        return Passed {
            t: tally_many(t, 2),
            at: at + 8,
        };
    }
    if short_long(v) {
        return Passed {
            t: tally_many(t, 2),
            at: at + 6,
        };
    }
    pass_word(t, bytes, at, (v % 4294967296) as u32, end)
}

pub fn count_steps(bytes: &[u8]) -> Sizes
    requires { length bytes.now ≤ 2097152 }
    ensures { Sized (first_record_of Pec) bytes.now result }
{
    let mut t = none();
    let mut at: usize = 0;
    let end = last_turn(bytes.len(), 8);
    // Kept as while: each turn goes on by its record's own length.
    while at < end {
        let p = pass_steps(t, bytes, at, end);
        t = p.t;
        at = p.at;
    }
    count_rest(Row::Pec, bytes, at, t)
}

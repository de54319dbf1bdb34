// The numbers that are kept while records are counted, and the plain loop.
// A port of src/formats/read.rs of zigzag, changed.
ghost use Rattle.std.specs.Prelude.{◌≡◌, ◌+◌, ◌≤◌, ◌<◌, ◌^◌, length, eqb};
ghost use Rattle.rules.specs.Vocabulary.{pick};
ghost use Rattle.read_records.specs.Firsts.{first_record_of};
ghost use Rattle.read_passes.specs.Told.{Sized};
ghost use Rattle.read_count.specs.Tallies.{no_tally, tallied, tallied_many, tallied_change, SmallTally, Tallying};

use read_passes::Sizes;
use read_records::{Row, record_at};
use rules::{Counts, Record};

// Stitches; runs begun; 1 where a run is open; the runs begun before this block; and blocks with runs that have ended.
#[derive(Clone, Copy)]
pub struct Tally {
    pub stitches: u32,
    pub runs: u32,
    pub running: u32,
    pub first: u32,
    pub blocks: u32,
}

// A tally, and the place of the next record.
#[derive(Clone, Copy)]
pub struct Passed {
    pub t: Tally,
    pub at: usize,
}

pub fn none() -> Tally
    ensures { result ≡ no_tally }
{
    Tally {
        stitches: 0,
        runs: 0,
        running: 0,
        first: 0,
        blocks: 0,
    }
}

// After a stitch (s is 1) or a jump (0).
pub fn tally_one(t: Tally, s: u32) -> Tally
    requires small_tally { SmallTally t }
    requires s_bound { s ≤ 1 }
    ensures { result ≡ tallied s t }
{
    Tally {
        stitches: t.stitches + s,
        runs: t.runs + s * (1 - t.running),
        running: s,
        ..t
    }
}

// After n stitches, one at least.
pub fn tally_many(t: Tally, n: u32) -> Tally
    requires small_tally { SmallTally t }
    requires n_bound { n < 2 ^ 31 }
    ensures { result ≡ tallied_many n t }
{
    Tally {
        stitches: t.stitches + n,
        runs: t.runs + (1 - t.running),
        running: 1,
        ..t
    }
}

fn differ(a: u32, b: u32) -> u32
    ensures { result ≡ pick (eqb a b) 0 1 }
{
    if a == b {
        return 0;
    }
    1
}

// After a colour change.
pub fn tally_change(t: Tally) -> Tally
    requires { SmallTally t }
    ensures { result ≡ tallied_change t }
{
    Tally {
        running: 0,
        first: t.runs,
        blocks: t.blocks + differ(t.runs, t.first),
        ..t
    }
}

// What a record of any kind makes of a tally, and the place of the next record.
fn pass(f: Row, bytes: &[u8], t: Tally, at: usize) -> Passed
    requires tallying { Tallying f bytes.now t at }
    requires at_in_bounds { at < length bytes.now }
    ensures tallying_2 { Tallying f bytes.now result.t result.at }
    ensures at_lt_at { at < result.at }
{
    match record_at(f, bytes, at) {
        Record::StitchBy { len, .. } => Passed {
            t: tally_one(t, 1),
            at: at + len,
        },
        Record::JumpBy { len, .. } => Passed {
            t: tally_one(t, 0),
            at: at + len,
        },
        Record::ChangeBy { len, .. } => Passed {
            t: tally_change(t),
            at: at + len,
        },
        Record::Finish => Passed { t, at: bytes.len() },
    }
}

// What the answers hold by a tally, once nothing more comes.
pub fn sizes(t: Tally) -> Sizes
    requires { SmallTally t }
    ensures { (result.points ≡ t.stitches + t.runs) × (result.runs ≡ t.runs) × (result.blocks ≡ t.blocks) }
{
    Sizes {
        points: t.stitches + t.runs,
        runs: t.runs,
        blocks: t.blocks,
    }
}

// The same, and the cuts: runs less blocks.
pub fn counts(t: Tally) -> Counts
    requires small_tally { SmallTally t }
    requires blocks_le_runs { t.blocks ≤ t.runs }
    ensures { (result.points ≡ t.stitches + t.runs) × (result.runs ≡ t.runs) × (result.blocks ≡ t.blocks) × (result.cuts + t.blocks ≡ t.runs) }
{
    Counts {
        points: t.stitches + t.runs,
        runs: t.runs,
        blocks: t.blocks,
        cuts: t.runs - t.blocks,
    }
}

// One record after the other, from byte `from` on, to the end.
pub fn count_rest(f: Row, bytes: &[u8], from: usize, first: Tally) -> Sizes
    requires { Tallying f bytes.now first from }
    ensures { Sized (first_record_of f) bytes.now result }
{
    let mut t = first;
    let mut at = from;
    // Kept as while: each turn goes on by its record's own length.
    while at < bytes.len() {
        let p = pass(f, bytes, t, at);
        t = p.t;
        at = p.at;
    }
    sizes(tally_change(t))
}

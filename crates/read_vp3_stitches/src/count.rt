// The first pass over the stitches of a block: how much they add to the answers.
ghost use Rattle.std.specs.Prelude.{◌≡◌, ◌+◌, ◌-◌, ◌≤◌, ◌<◌, length, drop};
ghost use Rattle.rules.specs.Vp3.{stitch_events};
ghost use Rattle.read_vp3_stitches.specs.Tallies.{tally_all, Spare, Counts};

use crate::steps::{Step, step_at};
use read_count::tally::{Passed, Tally, tally_many, tally_one};
use read_passes::last_turn;

// One step of any kind.
fn count_step(t: Tally, bytes: &[u8], at: usize) -> Passed
    requires { (at ≤ length bytes.now) × Spare t (length bytes.now - at) }
    ensures counts { Counts bytes.now t at result }
    ensures at_lt_at { at < length bytes.now → at < result.at }
{
    match step_at(bytes, at) {
        Step::Stitch { len, .. } => Passed {
            t: tally_one(t, 1),
            at: at + len,
        },
        Step::EndRun => Passed {
            t: tally_one(t, 0),
            at: at + 2,
        },
        Step::Nothing => Passed { t, at: at + 2 },
        Step::Finish => Passed { t, at: bytes.len() },
    }
}

// Two stitches of a pair each, or one step.
fn count_pair(t: Tally, bytes: &[u8], at: usize) -> Passed
    requires { (at + 4 ≤ length bytes.now) × Spare t (length bytes.now - at) }
    ensures counts { Counts bytes.now t at result }
    ensures at_lt_at { at < result.at }
{
    if bytes[at] == 0x80 {
        return count_step(t, bytes, at);
    }
    if bytes[at + 2] == 0x80 {
        return Passed {
            t: tally_one(t, 1),
            at: at + 2,
        };
    }
    Passed {
        t: tally_many(t, 2),
        at: at + 4,
    }
}

// One step after the other, from byte `from` on, to the end.
fn count_rest(bytes: &[u8], from: usize, first: Tally) -> Tally
    requires { (from ≤ length bytes.now) × Spare first (length bytes.now - from) }
    ensures { result ≡ tally_all first (stitch_events (drop from bytes.now)) }
{
    let mut t = first;
    let mut at = from;
    // Kept as while: each turn goes on by its step's own length.
    while at < bytes.len() {
        let p = count_step(t, bytes, at);
        t = p.t;
        at = p.at;
    }
    t
}

// All of them.
pub fn count_stitches(bytes: &[u8], first: Tally) -> Tally
    requires { Spare first (length bytes.now) }
    ensures { result ≡ tally_all first (stitch_events bytes.now) }
{
    let mut t = first;
    let mut at: usize = 0;
    let end = last_turn(bytes.len(), 4);
    // Kept as while: each turn goes on by its step's own length.
    while at < end {
        let p = count_pair(t, bytes, at);
        t = p.t;
        at = p.at;
    }
    count_rest(bytes, at, t)
}

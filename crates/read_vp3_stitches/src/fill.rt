// The second pass over the stitches of a block: points and ended runs go into the buffers.
ghost use Rattle.std.specs.Prelude.{◌≡◌, ◌+◌, ◌*◌, ◌≤◌, ◌<◌, length, drop};
ghost use Rattle.std.proofs.lemmas.List.Edits.{sets};
ghost use Rattle.rules.specs.Answers.{places};
ghost use Rattle.rules.specs.Vp3.{stitch_events};
ghost use Rattle.read_vp3_stitches.specs.Fills.{Ready, Filled, Turned};

use crate::steps::{Step, step_at};
use read_builder::Builder;
use read_passes::answers::{hop, sew};
use read_passes::{Turn, last_turn};
use read_records::bytes::s8;

// One step of any kind.
fn fill_step(b: Builder, bytes: &[u8], at: usize, places: &mut [i32], runs: &mut [u32]) -> Turn
    requires { Ready bytes.now b at (length places.old) (length runs.old) }
    ensures { Turned bytes.now b at places.old places.new runs.old runs.new result }
{
    match step_at(bytes, at) {
        Step::Stitch { dx, dy, len } => Turn {
            b: sew(b, dx, dy, places),
            at: at + len,
        },
        Step::EndRun => Turn {
            b: hop(b, 0, 0, runs),
            at: at + 2,
        },
        Step::Nothing => Turn { b, at: at + 2 },
        Step::Finish => Turn { b, at: bytes.len() },
    }
}

// Two stitches of a pair each, or one step.
fn fill_pair(b: Builder, bytes: &[u8], at: usize, places: &mut [i32], runs: &mut [u32]) -> Turn
    requires ready { Ready bytes.now b at (length places.old) (length runs.old) }
    requires at_in_bounds { at + 4 ≤ length bytes.now }
    ensures { Turned bytes.now b at places.old places.new runs.old runs.new result }
{
    if bytes[at] == 0x80 {
        return fill_step(b, bytes, at, places, runs);
    }
    let one = sew(b, s8(bytes[at]), s8(bytes[at + 1]), places);
    if bytes[at + 2] == 0x80 {
        return Turn { b: one, at: at + 2 };
    }
    Turn {
        b: sew(one, s8(bytes[at + 2]), s8(bytes[at + 3]), places),
        at: at + 4,
    }
}

// One step after the other, from byte `from` on, to the end.
fn fill_rest(
    bytes: &[u8],
    from: usize,
    first: Builder,
    places: &mut [i32],
    runs: &mut [u32],
) -> Builder
    requires { Ready bytes.now first from (length places.old) (length runs.old) }
    ensures { Filled (stitch_events (drop from bytes.now)) first places.old places.new runs.old runs.new result }
{
    let mut b = first;
    let mut at = from;
    // Kept as while: each turn goes on by its step's own length.
    while at < bytes.len() {
        let t = fill_step(b, bytes, at, places, runs);
        b = t.b;
        at = t.at;
    }
    b
}

// All of them.
pub fn fill_stitches(bytes: &[u8], first: Builder, places: &mut [i32], runs: &mut [u32]) -> Builder
    requires { Ready bytes.now first 0 (length places.old) (length runs.old) }
    ensures { Filled (stitch_events bytes.now) first places.old places.new runs.old runs.new result }
{
    let mut b = first;
    let mut at: usize = 0;
    let end = last_turn(bytes.len(), 4);
    // Kept as while: each turn goes on by its step's own length.
    while at < end {
        let t = fill_pair(b, bytes, at, places, runs);
        b = t.b;
        at = t.at;
    }
    fill_rest(bytes, at, b, places, runs)
}

// Replays what the Rust read of files (data/reads) and counts what the port reads the same.
#![tactic(auto)]

mod bytes;
mod verdicts;
mod walk;

ghost use Rattle.std.specs.Prelude.{◌<◌};
ghost use Rattle.replay_reads.specs.Room.{Roomy};

use bytes::extension;
use formats::extension_of;
use read_header::part;
use replay::{Case, Outcome, count};
use std::fs::File;
use std::io;
use std::io::Read;
use verdicts::{CELL, PLACE, judged};

// A case is counted under its format, or under 6 if its extension is none.
fn group(case: &[u8]) -> usize
    ensures { result < 7 }
{
    match extension_of(extension(case)) {
        Some(f) => f as usize,
        None => 6,
    }
}

// A case that was read. One that runs past the end is wrong. Buffers as long as the case hold its answer, which stands in the case.
fn replay_one(
    next: Case,
    tally: &mut [u64; 21],
    case: &[u8],
    places: &mut [i32],
    runs: &mut [u32],
    blocks: &mut [u32],
)
    requires { (next.len < 65536) × Roomy case.now places.old runs.old blocks.old }
{
    let n = next.len;
    let bytes = part(case, 0, n);
    let group = group(bytes);
    if !next.whole {
        count(tally, group, Outcome::Wrong);
        return;
    }
    let outcome = judged(bytes, &mut places[..n], &mut runs[..n], &mut blocks[..n]);
    count(tally, group, outcome);
}

// Goes through the list to its end, or through as many cases as 32 bits count.
fn replay<R: Read>(input: &mut R, tally: &mut [u64; 21]) -> io::Result<()> {
    let mut case = [0u8; 65536];
    let mut places = [PLACE; 65536];
    let mut runs = [CELL; 65536];
    let mut blocks = [CELL; 65536];
    for _ in 0..u32::MAX {
        let Some(next) = replay::next(input, &mut case)? else {
            return Ok(());
        };
        replay_one(next, tally, &case, &mut places, &mut runs, &mut blocks);
    }
    Ok(())
}

fn main(rt: HostRuntime) -> io::Result<()> {
    let mut file = File::open(&rt, "reads")?;
    let mut tally = [0u64; 21];
    replay(&mut file, &mut tally)?;
    replay::show_all(&rt, &tally)
}

// Replays what the Rust wrote of lists (data/writes) and counts what the port writes the same.
#![tactic(auto)]

mod buffers;
mod bytes;
mod verdicts;

ghost use Rattle.std.specs.Prelude.{◌<◌};
ghost use Rattle.replay_writes.specs.Room.{Roomy};

use read_header::part;
use replay::bytes::byte;
use replay::{Case, Outcome, count};
use std::fs::File;
use std::io;
use std::io::Read;
use verdicts::judged;

// A case is counted under its format, or under 6 if that is none.
fn group(case: &[u8]) -> usize
    ensures { result < 7 }
{
    if case.len() == 0 {
        return 6;
    }
    (byte(case, 0) as usize).min(6)
}

// A case that was read. One that runs past the end is wrong.
fn replay_one(
    next: Case,
    tally: &mut [u64; 21],
    case: &[u8],
    xs: &mut [i32],
    ys: &mut [i32],
    kinds: &mut [u8],
    out: &mut [u8],
)
    requires { Roomy xs.old ys.old kinds.old out.old }
{
    let bytes = part(case, 0, next.len);
    let group = group(bytes);
    if !next.whole {
        count(tally, group, Outcome::Wrong);
        return;
    }
    count(tally, group, judged(bytes, xs, ys, kinds, out));
}

// Goes through the list to its end, or through as many cases as 32 bits count.
fn replay<R: Read>(input: &mut R, tally: &mut [u64; 21]) -> io::Result<()> {
    let mut case = [0u8; 65536];
    let mut xs = [0i32; 65536];
    let mut ys = [0i32; 65536];
    let mut kinds = [0u8; 65536];
    let mut out = [0u8; 65536];
    for _ in 0..u32::MAX {
        let Some(next) = replay::next(input, &mut case)? else {
            return Ok(());
        };
        replay_one(next, tally, &case, &mut xs, &mut ys, &mut kinds, &mut out);
    }
    Ok(())
}

fn main(rt: HostRuntime) -> io::Result<()> {
    let mut file = File::open(&rt, "writes")?;
    let mut tally = [0u64; 21];
    replay(&mut file, &mut tally)?;
    replay::show_all(&rt, &tally)
}

// Replays the Rust's answers on colours, threads and bounds (data/choices) and counts what agrees.
#![tactic(auto)]

mod verdicts;

ghost use Rattle.std.specs.Prelude.{◌+◌, ◌≤◌, ◌<◌};
ghost use Rattle.replay_choices.specs.Score.{Counted};

use replay::bytes::{byte, word};
use std::fs::File;
use std::io;

// How many answers agree, and how many do not.
#[derive(Clone, Copy)]
pub struct Score {
    pub right: usize,
    pub wrong: usize,
}

// The score after a case, if it asks `what`.
fn judged(s: Score, case: &[u8], what: u8) -> Score
    requires { s.right + s.wrong < 4294967296 }
    ensures { result.right + result.wrong ≤ s.right + s.wrong + 1 }
{
    if byte(case, 0) != what {
        return s;
    }
    if verdicts::agrees(case, what) {
        return Score {
            right: s.right + 1,
            wrong: s.wrong,
        };
    }
    Score {
        right: s.right,
        wrong: s.wrong + 1,
    }
}

// Goes through the cases that ask `what`. A case that runs past the end is counted as wrong.
fn replay(cases: &[u8], n: usize, what: u8) -> Score
    requires { Counted n cases.now }
{
    let mut s = Score { right: 0, wrong: 0 };
    let mut at = 0;
    // Kept as while: each turn goes on by its case's own length.
    while at + 2 <= n {
        let len = word(cases, at);
        let start = at + 2;
        if n - start < len {
            return Score {
                right: s.right,
                wrong: s.wrong + 1,
            };
        }
        let end = start + len;
        s = judged(s, &cases[start..end], what);
        at = end;
    }
    s
}

fn show(out: &impl Print, name: &str, s: Score) -> io::Result<()> {
    replay::show(out, name, s.right as u64, s.wrong as u64, 0)
}

fn show_all(out: &impl Print, cases: &[u8], n: usize) -> io::Result<()>
    requires { Counted n cases.now }
{
    show(out, "color_distance", replay(cases, n, 0))?;
    show(out, "nearest_index", replay(cases, n, 1))?;
    show(out, "jef_palette", replay(cases, n, 2))?;
    show(out, "nearest_index of a part", replay(cases, n, 3))?;
    show(out, "stream_bounds", replay(cases, n, 4))
}

fn main(rt: HostRuntime) -> io::Result<()> {
    let mut file = File::open(&rt, "choices")?;
    let mut cases = [0u8; 65536];
    let n = replay::read_full(&mut file, &mut cases)?;
    show_all(&rt, &cases, n)
}

// What the replaying programs share: the next case of a list, numbers in it, a packed file, the counts of outcomes.
#![tactic(auto)]

pub mod bytes;
pub mod packbits;

ghost use Rattle.std.specs.Prelude.{◌<◌, ◌≤◌, ◌↔◌, All, IsTrue, drop, length, IfOk, IfSome};
ghost use Rattle.std.specs.Io.{ReadsAtMost};

use bytes::word;
use std::io;
use std::io::Read;

// A case of a list: how many bytes of it there are, and whether these are all.
#[derive(Clone, Copy)]
pub struct Case {
    pub len: usize,
    pub whole: bool,
}

#[derive(Clone, Copy)]
pub enum Outcome {
    Right,
    Wrong,
    Skipped,
}

// Reads to the front of a buffer, until it is full or the input ends.
pub fn read_full<R: Read>(input: &mut R, buf: &mut [u8]) -> io::Result<usize>
    ensures { ReadsAtMost result buf.new }
{
    let mut done = 0;
    // Kept as while: each turn goes on by as many bytes as were read.
    while done < buf.len() {
        let n = input.read(&mut buf[done..])?;
        if n == 0 {
            break;
        }
        done += n;
    }
    Ok(done)
}

// The next len bytes of the list, or as many as there are.
fn fetch<R: Read>(input: &mut R, case: &mut [u8], len: usize) -> io::Result<usize>
    requires { len ≤ length case.old }
    ensures { IfOk result (λ n. n ≤ len) }
{
    read_full(input, &mut case[..len])
}

// The next case of the list, if there is one; two bytes before it tell its length.
pub fn next<R: Read>(input: &mut R, case: &mut [u8]) -> io::Result<Option<Case>>
    requires { 65536 ≤ length case.old }
    ensures { IfOk result (λ next. IfSome next (λ c. c.len < 65536)) }
{
    let mut head = [0u8; 2];
    if read_full(input, &mut head)? == 0 {
        return Ok(None);
    }
    let len = word(&head, 0);
    let n = fetch(input, case, len)?;
    Ok(Some(Case {
        len: n,
        whole: n == len,
    }))
}

pub fn verdict(right: bool) -> Outcome {
    if right {
        Outcome::Right
    } else {
        Outcome::Wrong
    }
}

// Whether the cells of a buffer from one on have the mark that it was filled with.
pub fn stays<T: Copy + PartialEq>(s: &[T], from: usize, mark: T) -> bool
    ensures { IsTrue result ↔ All (λ x. IsTrue (T.eq x mark)) (drop from s.now) }
{
    s.iter().skip(from).all(|x| *x == mark)
}

// The right, the wrong and the skipped cases of a group are counted side by side.
fn cell(group: usize, outcome: Outcome) -> usize
    requires { group < 7 }
    ensures { result < 21 }
{
    match outcome {
        Outcome::Right => 3 * group,
        Outcome::Wrong => 3 * group + 1,
        Outcome::Skipped => 3 * group + 2,
    }
}

// No more cases are read than 32 bits count, so no count wraps.
pub fn count(tally: &mut [u64; 21], group: usize, outcome: Outcome)
    requires { group < 7 }
{
    let i = cell(group, outcome);
    tally[i] = tally[i].wrapping_add(1);
}

fn show_skipped(out: &impl Print, n: u64) -> io::Result<()> {
    if n == 0 {
        return Ok(());
    }
    print!(out; ", skipped {n}")
}

pub fn show(out: &impl Print, name: &str, right: u64, wrong: u64, skipped: u64) -> io::Result<()> {
    print!(out; "{name}: {right} right, {wrong} wrong")?;
    show_skipped(out, skipped)?;
    println!(out;)
}

// A line for each group: the formats, and cases of none of them.
pub fn show_all(out: &impl Print, tally: &[u64; 21]) -> io::Result<()> {
    show(out, "pes", tally[0], tally[1], tally[2])?;
    show(out, "pec", tally[3], tally[4], tally[5])?;
    show(out, "dst", tally[6], tally[7], tally[8])?;
    show(out, "exp", tally[9], tally[10], tally[11])?;
    show(out, "jef", tally[12], tally[13], tally[14])?;
    show(out, "vp3", tally[15], tally[16], tally[17])?;
    show(out, "other", tally[18], tally[19], tally[20])
}

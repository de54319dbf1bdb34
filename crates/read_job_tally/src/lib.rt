// What the commands of a job come to, gathered in one pass over their bytes: refusals 6 to 9 are told from it.
#![tactic(auto)]

ghost use Rattle.std.specs.Prelude.{◌≡◌, false, ◌+◌, ◌≤◌, ◌<◌, length};
ghost use Rattle.rules.specs.Jobs.{rows_of};
ghost use Rattle.laws.specs.Jobs.{row_at};
ghost use Rattle.read_job_tally.specs.Tallies.{no_tally, counted, tallied, bad_tally, many_tally, tally_verdict, Spare};

use read_job_fields::i16le;
use rules::{MOST_CHANGES, MOST_COMMANDS, MOST_THREADS, Refusal};
use write_refusals::{is_change, is_placed, moves};

// Of the commands so far: how many, how many colour changes, the last place, whether the last is an end and whether an earlier one is,
// whether a kind is unknown, a place outside the range, a trim, colour change or end moved.
// Kept as flags: each is a condition of refusals 6 to 9, gathered with no early exit; none says whether a value is there.
#[derive(Clone, Copy)]
pub struct Tally {
    pub commands: u32,
    pub changes: u32,
    pub x: i32,
    pub y: i32,
    pub ended: bool,
    pub early: bool,
    pub unknown: bool,
    pub outside: bool,
    pub moved: bool,
}

// No command yet.
pub fn none() -> Tally
    ensures { result ≡ no_tally }
{
    Tally {
        commands: 0,
        changes: 0,
        x: 0,
        y: 0,
        ended: false,
        early: false,
        unknown: false,
        outside: false,
        moved: false,
    }
}

// One command more.
fn with_cmd(t: Tally, kind: u8, x: i32, y: i32) -> Tally
    requires { (t.changes ≤ t.commands) × (t.commands < 4294967295) }
    ensures { result ≡ counted t (record { x = x; y = y; kind = kind }) }
{
    Tally {
        commands: t.commands + 1,
        changes: t.changes + is_change(kind) as u32,
        x,
        y,
        ended: kind == 4,
        early: t.early | t.ended,
        unknown: t.unknown | (4 < kind),
        outside: t.outside | !is_placed(x, y),
        moved: t.moved | moves(kind, t.x, t.y, x, y),
    }
}

// The command at a place of a field's content.
fn with_row(t: Tally, bytes: &[u8], at: usize) -> Tally
    requires changes_le_commands { (t.changes ≤ t.commands) × (t.commands < 4294967295) }
    requires at_in_bounds { at + 5 ≤ length bytes.now }
    ensures { result ≡ counted t (row_at bytes.now at) }
{
    let x = i16le(bytes, at + 1);
    let y = i16le(bytes, at + 3);
    with_cmd(t, bytes[at], x, y)
}

// The commands of a field's content.
pub fn with_rows(t: Tally, bytes: &[u8]) -> Tally
    requires { Spare t (length bytes.now) }
    ensures { result ≡ tallied t (rows_of bytes.now) }
{
    let mut now = t;
    for i in 0..bytes.len() / 5 {
        now = with_row(now, bytes, 5 * i);
    }
    now
}

// 6: no command or too many, or the end missing, early or repeated. Unknown kinds were refused before.
#[tactic(auto, unfolding(crate::specs::Tallies::bad_tally))]
fn is_bad(t: Tally) -> bool
    requires { t.unknown ≡ false }
    ensures { result ≡ bad_tally t }
{
    let n = t.commands as usize;
    if n == 0 {
        return true;
    }
    if MOST_COMMANDS < n {
        return true;
    }
    t.early | !t.ended
}

// 8: too many colour changes or threads, or thread bytes not a multiple of three.
#[tactic(auto, unfolding(crate::specs::Tallies::many_tally))]
fn is_too_many(t: Tally, thread_bytes: usize) -> bool
    ensures { result ≡ many_tally t thread_bytes }
{
    if MOST_CHANGES < t.changes as usize {
        return true;
    }
    if MOST_THREADS < thread_bytes / 3 {
        return true;
    }
    thread_bytes % 3 != 0
}

// The first of refusals 6 to 9 that holds of the commands and so many bytes of threads.
#[tactic(auto, unfolding(crate::specs::Tallies::tally_verdict, rules::specs::Refusals::verdict))]
pub fn check_tally(t: Tally, thread_bytes: usize) -> Result<(), Refusal>
    requires { t.unknown ≡ false }
    ensures { result ≡ tally_verdict t thread_bytes }
{
    if is_bad(t) {
        return Err(Refusal::BadList);
    }
    if t.outside {
        return Err(Refusal::PlaceOutside);
    }
    if is_too_many(t, thread_bytes) {
        return Err(Refusal::TooMany);
    }
    if t.moved {
        return Err(Refusal::Moved);
    }
    Ok(())
}

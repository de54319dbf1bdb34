// PES: what one command writes, and the state between two commands.
// A port of src/formats/pes.rs of zigzag, changed.
#![tactic(auto)]

ghost use Rattle.std.specs.Prelude.{◌≡◌, true, false, not, [], ◌∷◌, ◌+◌, ◌≤◌, eqb, length};
ghost use Rattle.rules.specs.Vocabulary.{pick, little};
ghost use Rattle.rules.specs.Lists.{op_of, threads_of};
ghost use Rattle.rules.specs.Pes.{pes_start, pes_next, pes_point, pes_open, opens_section, shorts};
ghost use Rattle.rules.specs.declared.Op.TheVariants.{ColorChange};
ghost use Rattle.laws.specs.Buffers.{Puts};
ghost use Rattle.pec_threads.specs.Codes.{Coded};
ghost use Rattle.pes_section_cmd.specs.States.{state_of, moved_to, open_len, cmd_len, Near, logs};

use emit::{low16, put_short};
use formats::op_of;
use pec_threads::code_at;
use rules::Op;

// Between two commands: the kind of the one before, the entry in use, the next thread, the place of the last stitch, the
// sections so far.
#[derive(Clone, Copy)]
pub struct State {
    pub before: u8,
    pub code: usize,
    pub thread: usize,
    pub x: i32,
    pub y: i32,
    pub sections: usize,
}

pub fn start(codes: &[u8; 256], threads: &[u8]) -> State
    requires { Coded (threads_of threads.now) codes.now }
    ensures { state_of result ≡ pes_start (threads_of threads.now) }
{
    State {
        before: 4,
        code: code_at(codes, threads, 0),
        thread: 1,
        x: 0,
        y: 0,
        sections: 0,
    }
}

// 1 or 0.
pub fn one_if(yes: bool) -> usize
    ensures { (result ≡ pick yes 1 0) × (result ≤ 1) }
{
    if yes {
        return 1;
    }
    0
}

// Whether a run opens: the kind is another than before.
pub fn is_new(s: State, kind: u8) -> bool
    ensures { result ≡ not (eqb kind s.before) }
{
    kind != s.before
}

// Whether it is a stitch of an open section.
pub fn goes_on(new: bool, kind: u8) -> bool
    ensures { result ≡ true → (new ≡ false) × (kind ≡ 0) }
{
    if new {
        return false;
    }
    kind == 0
}

// After such a stitch.
pub fn moved(s: State, x: i32, y: i32) -> State
    ensures { state_of result ≡ moved_to (state_of s) x y }
{
    State { x, y, ..s }
}

// After a colour change: a run of them moves on by one thread.
fn changed(
    codes: &[u8; 256],
    threads: &[u8],
    s: State,
    new: bool,
    kind: u8,
    x: i32,
    y: i32,
) -> State
    requires coded { Coded (threads_of threads.now) codes.now }
    requires thread_bound { s.thread ≤ 65536 }
    ensures { state_of result ≡ pes_next (threads_of threads.now) (state_of s) new ColorChange (record { x = x; y = y; kind = kind }) }
{
    let thread = s.thread;
    if new {
        return State {
            before: kind,
            code: code_at(codes, threads, thread),
            thread: thread + 1,
            ..s
        };
    }
    State { before: kind, ..s }
}

// After a command of a kind, which leads to (x, y).
pub fn next(
    codes: &[u8; 256],
    threads: &[u8],
    s: State,
    new: bool,
    kind: u8,
    x: i32,
    y: i32,
) -> State
    requires coded { Coded (threads_of threads.now) codes.now }
    requires thread_bound { (s.thread ≤ 65536) × (s.sections ≤ 65535) }
    ensures { state_of result ≡ pes_next (threads_of threads.now) (state_of s) new (op_of kind) (record { x = x; y = y; kind = kind }) }
{
    match op_of(kind) {
        Op::Stitch => State {
            before: kind,
            x,
            y,
            sections: s.sections + one_if(new),
            ..s
        },
        Op::Jump => State {
            before: kind,
            sections: s.sections + one_if(new),
            ..s
        },
        Op::ColorChange => changed(codes, threads, s, new, kind, x, y),
        Op::Trim | Op::End => State { before: kind, ..s },
    }
}

// A place from the left and the bottom edge.
pub fn put_point(left: i32, bottom: i32, x: i32, y: i32, out: &mut [u8], at: usize) -> usize
    requires near { Near left bottom x y }
    requires at_in_bounds { at + 4 ≤ length out.old }
    ensures { Puts out at result (pes_point left bottom x y) }
{
    let up = put_short(out, at, low16(x - left));
    put_short(out, up, low16(y - bottom))
}

// Behind a section before: 0x8003.
fn put_between(sections: usize, out: &mut [u8], at: usize) -> usize
    requires { at + length (pick (eqb sections 0) [] (little 2 0x8003)) ≤ length out.old }
    ensures { Puts out at result (pick (eqb sections 0) [] (little 2 0x8003)) }
{
    if sections == 0 {
        return at;
    }
    put_short(out, at, 0x8003)
}

// A section's beginning: whether it is a jump, the entry, the points.
pub fn put_open(s: State, flag: usize, points: usize, out: &mut [u8], at: usize) -> usize
    requires { at + length (pes_open (state_of s) flag points) ≤ length out.old }
    ensures { Puts out at result (pes_open (state_of s) flag points) }
{
    let first = put_between(s.sections, out, at);
    let second = put_short(out, first, flag);
    let third = put_short(out, second, s.code);
    put_short(out, third, points)
}

fn open_len(sections: usize) -> usize
    ensures { (result ≡ open_len sections) × (result ≤ 8) }
{
    if sections == 0 {
        return 6;
    }
    8
}

// The bytes that a command takes.
pub fn cmd_len(sections: usize, new: bool, kind: u8) -> usize
    ensures { (result ≡ cmd_len sections new (op_of kind)) × (result ≤ 16) }
{
    match op_of(kind) {
        Op::Stitch => { if new { open_len(sections) + 4 } else { 4 } }
        Op::Jump => { if new { open_len(sections) + 8 } else { 0 } }
        Op::Trim | Op::ColorChange | Op::End => 0,
    }
}

// Whether a command opens a section.
fn opens_section(new: bool, kind: u8) -> bool
    ensures { result ≡ opens_section new (op_of kind) }
{
    match op_of(kind) {
        Op::Stitch | Op::Jump => new,
        Op::Trim | Op::ColorChange | Op::End => false,
    }
}

// Whether it is logged: the section's entry is not the one logged last.
pub fn is_logged(last: usize, code: usize, new: bool, kind: u8) -> bool
    ensures { result ≡ logs last code new (op_of kind) }
{
    if opens_section(new, kind) {
        return last != code;
    }
    false
}

// The entry logged last.
pub fn last_code(logged: bool, code: usize, last: usize) -> usize
    ensures { result ≡ pick logged code last }
{
    if logged {
        return code;
    }
    last
}

// A section and its entry, if it is logged.
pub fn put_entry(logged: bool, section: usize, code: usize, out: &mut [u8], at: usize) -> usize
    requires { at + length (pick logged (shorts (section ∷ code ∷ [])) []) ≤ length out.old }
    ensures { Puts out at result (pick logged (shorts (section ∷ code ∷ [])) []) }
{
    if logged {
        let second = put_short(out, at, section);
        return put_short(out, second, code);
    }
    at
}

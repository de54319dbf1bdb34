// PES and PEC: two stitches of one kind, a row of jumps, or one record, in a turn.
// A port of src/formats/read.rs of zigzag, changed.
ghost use Rattle.std.specs.Prelude.{◌≡◌, true, ℕ, ◌+◌, ◌≤◌, ◌<◌, length};
ghost use Rattle.read_records.specs.declared.Row.TheVariants.{Pec};
ghost use Rattle.read_builder.specs.Builders.{origin};
ghost use Rattle.read_records.specs.Tables.{PecSteps};
ghost use Rattle.read_records.specs.Words.{four_at, eight_at, masked};
ghost use Rattle.read_passes.specs.Walks.{Bounded};
ghost use Rattle.read_fill.specs.Turns.{Room, Turns, Ends, Hopped, RoomHere, Sewn};

use read_builder::{Builder, jump, new, sum};
use read_passes::answers::{change, hop, sew};
use read_passes::{Turn, fill_rest, last_turn};
use read_records::Row;
use read_records::words::{
    eight, first_of, four, past, pec_step, pec_steps, sews_by, short_long, step_of, top, two_long,
    two_short,
};

// The jumps that stand at `from`, as long as they begin before `end` and with a byte below FE. No run is open.
fn hop_row(steps: &[i32], first: Builder, bytes: &[u8], from: usize, end: usize) -> Turn
    requires pec_steps { PecSteps steps.now }
    requires bytes_len_bound { length bytes.now ≤ 2097152 }
    requires by_index { (at : ℕ) → at < end → at + 8 ≤ length bytes.now }
    requires from_in_bounds { from ≤ length bytes.now }
    requires bounded { Bounded first from }
    requires run_value { first.run ≡ 0 }
    ensures hopped { Hopped bytes.now first from result.b result.at }
    ensures from_le_at { from ≤ result.at }
{
    let mut b = first;
    let mut at = from;
    // Kept as while: each turn goes on by its record's own length.
    while at < end {
        let w = four(bytes, at);
        let y = past(w);
        if 0xFE <= w % 256 {
            return Turn { b, at };
        }
        if sews_by(steps, w, y) {
            return Turn { b, at };
        }
        b = jump(b, sum(b.x, step_of(steps, w)), sum(b.y, step_of(steps, y)));
        at = at + 2 + top(w) + top(y);
    }
    Turn { b, at }
}

// Two stitches whose steps have one byte each.
fn sew_short(steps: &[i32], b: Builder, bytes: &[u8], at: usize, places: &mut [i32]) -> Turn
    requires pec_steps { PecSteps steps.now }
    requires at_in_bounds { at + 8 ≤ length bytes.now }
    requires at_value { masked 0x80808080 0 (eight_at bytes.now at) ≡ true }
    requires room_here { RoomHere Pec bytes.now b at (length places.old) }
    ensures { Sewn Pec bytes.now b at places result }
{
    let dx = first_of(steps, bytes[at]);
    let dy = first_of(steps, bytes[at + 1]);
    let one = sew(b, dx, dy, places);
    let ex = first_of(steps, bytes[at + 2]);
    let ey = first_of(steps, bytes[at + 3]);
    Turn {
        b: sew(one, ex, ey, places),
        at: at + 4,
    }
}

// Two stitches whose steps have two bytes each.
fn sew_long(steps: &[i32], b: Builder, bytes: &[u8], at: usize, places: &mut [i32]) -> Turn
    requires pec_steps { PecSteps steps.now }
    requires at_in_bounds { at + 8 ≤ length bytes.now }
    requires at_value { masked 0x00B000B000B000B0 0x0080008000800080 (eight_at bytes.now at) ≡ true }
    requires room_here { RoomHere Pec bytes.now b at (length places.old) }
    ensures { Sewn Pec bytes.now b at places result }
{
    let dx = pec_step(steps, bytes[at], bytes[at + 1]);
    let dy = pec_step(steps, bytes[at + 2], bytes[at + 3]);
    let one = sew(b, dx, dy, places);
    let ex = pec_step(steps, bytes[at + 4], bytes[at + 5]);
    let ey = pec_step(steps, bytes[at + 6], bytes[at + 7]);
    Turn {
        b: sew(one, ex, ey, places),
        at: at + 8,
    }
}

// Two stitches whose steps have one byte and two by turns.
fn sew_short_long(steps: &[i32], b: Builder, bytes: &[u8], at: usize, places: &mut [i32]) -> Turn
    requires pec_steps { PecSteps steps.now }
    requires at_in_bounds { at + 8 ≤ length bytes.now }
    requires at_value { masked 0x000000B08000B080 0x0000008000008000 (eight_at bytes.now at) ≡ true }
    requires room_here { RoomHere Pec bytes.now b at (length places.old) }
    ensures { Sewn Pec bytes.now b at places result }
{
    let dx = first_of(steps, bytes[at]);
    let dy = pec_step(steps, bytes[at + 1], bytes[at + 2]);
    let one = sew(b, dx, dy, places);
    let ex = first_of(steps, bytes[at + 3]);
    let ey = pec_step(steps, bytes[at + 4], bytes[at + 5]);
    Turn {
        b: sew(one, ex, ey, places),
        at: at + 6,
    }
}

// One record, or a row of jumps; w are its first four bytes.
fn turn_word(
    steps: &[i32],
    b: Builder,
    bytes: &[u8],
    at: usize,
    w: u32,
    end: usize,
    colors: &[u32],
    places: &mut [i32],
    runs: &mut [u32],
    blocks: &mut [u32],
) -> Turn
    requires pec_steps { PecSteps steps.now }
    requires at_lt_end { at < end }
    requires by_index { (i : ℕ) → i < end → i + 8 ≤ length bytes.now }
    requires w_value { w ≡ four_at bytes.now at }
    requires room { Room Pec bytes colors b at places runs blocks }
    ensures { Turns Pec bytes.now colors.now b at places runs blocks result }
{
    if w % 65536 == 0x00FF {
        return Turn { b, at: bytes.len() };
    }
    if w % 65536 == 0xB0FE {
        return Turn {
            b: change(b, 0, 0, colors, runs, blocks),
            at: at + 3,
        };
    }
    let y = past(w);
    let next = at + 2 + top(w) + top(y);
    if sews_by(steps, w, y) {
        return Turn {
            b: sew(b, step_of(steps, w), step_of(steps, y), places),
            at: next,
        };
    }
    hop_row(
        steps,
        hop(b, step_of(steps, w), step_of(steps, y), runs),
        bytes,
        next,
        end,
    )
}

fn turn_steps(
    steps: &[i32],
    b: Builder,
    bytes: &[u8],
    at: usize,
    end: usize,
    colors: &[u32],
    places: &mut [i32],
    runs: &mut [u32],
    blocks: &mut [u32],
) -> Turn
    requires pec_steps { PecSteps steps.now }
    requires at_lt_end { at < end }
    requires by_index { (i : ℕ) → i < end → i + 8 ≤ length bytes.now }
    requires room { Room Pec bytes colors b at places runs blocks }
    ensures { Turns Pec bytes.now colors.now b at places runs blocks result }
{
    let v = eight(bytes, at);
    if two_short(v) {
        return sew_short(steps, b, bytes, at, places);
    }
    if two_long(v) {
        return sew_long(steps, b, bytes, at, places);
    }
    if short_long(v) {
        return sew_short_long(steps, b, bytes, at, places);
    }
    turn_word(
        steps,
        b,
        bytes,
        at,
        (v % 4294967296) as u32,
        end,
        colors,
        places,
        runs,
        blocks,
    )
}

pub fn fill_steps(
    bytes: &[u8],
    colors: &[u32],
    places: &mut [i32],
    runs: &mut [u32],
    blocks: &mut [u32],
) -> Builder
    requires { Room Pec bytes colors origin 0 places runs blocks }
    ensures { Ends Pec bytes.now colors.now places runs blocks result }
{
    let steps = pec_steps();
    let mut b = new();
    let mut at: usize = 0;
    let end = last_turn(bytes.len(), 8);
    // Kept as while: each turn goes on by its record's own length.
    while at < end {
        let t = turn_steps(&steps, b, bytes, at, end, colors, places, runs, blocks);
        b = t.b;
        at = t.at;
    }
    fill_rest(Row::Pec, bytes, at, b, colors, places, runs, blocks)
}

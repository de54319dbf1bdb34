// PES and PEC: two stitches of one kind, or one record, in a turn.
ghost use Rattle.std.specs.Prelude.{◌≡◌, true, ◌+◌, ◌≤◌, length};
ghost use Rattle.rules.specs.Hoop.{all_in_hoop};
ghost use Rattle.read_records.specs.Firsts.{first_record_of};
ghost use Rattle.read_records.specs.Tables.{PecSteps};
ghost use Rattle.read_records.specs.Words.{four_at, eight_at, masked};
ghost use Rattle.read_records.specs.declared.Row.TheVariants.{Pec};
ghost use Rattle.read_passes.specs.Told.{places_in};
ghost use Rattle.hoop_records.specs.Rows.{Looking, Looks};

use crate::looks::{Look, hop, look_from, pass_to, sew, sew_two};
use crate::rest::fits_rest;
use read_passes::last_turn;
use read_records::Row;
use read_records::words::{
    eight, first_of, past, pec_step, pec_steps, sews_by, short_long, step_of, top, two_long,
    two_short,
};
use rules::Hoop;

// Two stitches whose steps have one byte each.
fn look_short(steps: &[i32], h: Hoop, w: Look, bytes: &[u8]) -> Option<Look>
    requires pec_steps { PecSteps steps.now }
    requires at_in_bounds { w.at + 8 ≤ length bytes.now }
    requires at_value { masked 0x80808080 0 (eight_at bytes.now w.at) ≡ true }
    requires looking { Looking bytes.now w }
    ensures { Looks Pec h bytes.now w result }
{
    let at = w.at;
    let dx = first_of(steps, bytes[at]);
    let dy = first_of(steps, bytes[at + 1]);
    let ex = first_of(steps, bytes[at + 2]);
    let ey = first_of(steps, bytes[at + 3]);
    sew_two(h, w, dx, dy, ex, ey, 2)
}

// Two stitches whose steps have two bytes each.
fn look_long(steps: &[i32], h: Hoop, w: Look, bytes: &[u8]) -> Option<Look>
    requires pec_steps { PecSteps steps.now }
    requires at_in_bounds { w.at + 8 ≤ length bytes.now }
    requires at_value { masked 0x00B000B000B000B0 0x0080008000800080 (eight_at bytes.now w.at) ≡ true }
    requires looking { Looking bytes.now w }
    ensures { Looks Pec h bytes.now w result }
{
    let at = w.at;
    let dx = pec_step(steps, bytes[at], bytes[at + 1]);
    let dy = pec_step(steps, bytes[at + 2], bytes[at + 3]);
    let ex = pec_step(steps, bytes[at + 4], bytes[at + 5]);
    let ey = pec_step(steps, bytes[at + 6], bytes[at + 7]);
    sew_two(h, w, dx, dy, ex, ey, 4)
}

// Two stitches whose steps have one byte and two by turns.
fn look_short_long(steps: &[i32], h: Hoop, w: Look, bytes: &[u8]) -> Option<Look>
    requires pec_steps { PecSteps steps.now }
    requires at_in_bounds { w.at + 8 ≤ length bytes.now }
    requires at_value { masked 0x000000B08000B080 0x0000008000008000 (eight_at bytes.now w.at) ≡ true }
    requires looking { Looking bytes.now w }
    ensures { Looks Pec h bytes.now w result }
{
    let at = w.at;
    let dx = first_of(steps, bytes[at]);
    let dy = pec_step(steps, bytes[at + 1], bytes[at + 2]);
    let ex = first_of(steps, bytes[at + 3]);
    let ey = pec_step(steps, bytes[at + 4], bytes[at + 5]);
    sew_two(h, w, dx, dy, ex, ey, 3)
}

// One record; v are its first four bytes.
fn look_word(steps: &[i32], h: Hoop, w: Look, bytes: &[u8], v: u32) -> Option<Look>
    requires pec_steps { PecSteps steps.now }
    requires at_in_bounds { w.at + 8 ≤ length bytes.now }
    requires v_value { v ≡ four_at bytes.now w.at }
    requires looking { Looking bytes.now w }
    ensures { Looks Pec h bytes.now w result }
{
    if v % 65536 == 0x00FF {
        return Some(pass_to(w, bytes.len()));
    }
    if v % 65536 == 0xB0FE {
        return Some(hop(w, 0, 0, 3));
    }
    let y = past(v);
    let len = 2 + top(v) + top(y);
    let dx = step_of(steps, v);
    let dy = step_of(steps, y);
    if sews_by(steps, v, y) {
        return sew(h, w, dx, dy, len);
    }
    Some(hop(w, dx, dy, len))
}

fn look_steps(steps: &[i32], h: Hoop, w: Look, bytes: &[u8]) -> Option<Look>
    requires pec_steps { PecSteps steps.now }
    requires at_in_bounds { w.at + 8 ≤ length bytes.now }
    requires looking { Looking bytes.now w }
    ensures { Looks Pec h bytes.now w result }
{
    let v = eight(bytes, w.at);
    if two_short(v) {
        return look_short(steps, h, w, bytes);
    }
    if two_long(v) {
        return look_long(steps, h, w, bytes);
    }
    if short_long(v) {
        return look_short_long(steps, h, w, bytes);
    }
    look_word(steps, h, w, bytes, (v % 4294967296) as u32)
}

pub fn fits_steps(h: Hoop, bytes: &[u8]) -> bool
    requires { length bytes.now ≤ 2097152 }
    ensures { result ≡ all_in_hoop h (places_in (first_record_of Pec) bytes.now) }
{
    let steps = pec_steps();
    let mut w = look_from(0, 0);
    let end = last_turn(bytes.len(), 8);
    // Kept as while: each turn goes on by its record's own length.
    while w.at < end {
        let Some(next) = look_steps(&steps, h, w, bytes) else {
            return false;
        };
        w = next;
    }
    fits_rest(Row::Pec, h, bytes, w)
}

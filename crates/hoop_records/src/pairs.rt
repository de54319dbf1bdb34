// EXP and JEF: two stitches, or one record, in a turn.
ghost use Rattle.std.specs.Prelude.{◌≡◌, ◌+◌, ◌≤◌, length, get_or};
ghost use Rattle.rules.specs.Hoop.{all_in_hoop};
ghost use Rattle.read_records.specs.Firsts.{first_record_of, pair_row};
ghost use Rattle.read_records.specs.Tables.{Kinds};
ghost use Rattle.read_passes.specs.Told.{places_in};
ghost use Rattle.hoop_records.specs.Rows.{Looking, Looks};

use crate::looks::{Look, hop, look_from, pass_to, sew, sew_two};
use crate::rest::fits_rest;
use read_passes::last_turn;
use read_records::bytes::{minus8, s8};
use read_records::pair::{kinds, row_of, step_x, step_y};
use rules::Hoop;

// A control.
fn look_control(jef: bool, h: Hoop, w: Look, table: &[u8], bytes: &[u8]) -> Option<Look>
    requires kinds { Kinds jef table.now }
    requires at_in_bounds { w.at + 4 ≤ length bytes.now }
    requires at_value { get_or bytes.now w.at 0 ≡ 0x80 }
    requires looking { Looking bytes.now w }
    ensures { Looks (pair_row jef) h bytes.now w result }
{
    let at = w.at;
    let c = bytes[at + 1];
    let k = table[c as usize];
    let dx = step_x(c, bytes[at + 2]);
    let dy = step_y(c, bytes[at + 3]);
    if k == 0 {
        return sew(h, w, dx, dy, 4);
    }
    if k == 3 {
        return Some(pass_to(w, bytes.len()));
    }
    Some(hop(w, dx, dy, 4))
}

fn look_pair(jef: bool, h: Hoop, w: Look, table: &[u8], bytes: &[u8]) -> Option<Look>
    requires kinds { Kinds jef table.now }
    requires at_in_bounds { w.at + 4 ≤ length bytes.now }
    requires looking { Looking bytes.now w }
    ensures { Looks (pair_row jef) h bytes.now w result }
{
    let at = w.at;
    if bytes[at] == 0x80 {
        return look_control(jef, h, w, table, bytes);
    }
    let dx = s8(bytes[at]);
    let dy = minus8(bytes[at + 1]);
    if bytes[at + 2] == 0x80 {
        return sew(h, w, dx, dy, 2);
    }
    sew_two(h, w, dx, dy, s8(bytes[at + 2]), minus8(bytes[at + 3]), 2)
}

pub fn fits_pairs(jef: bool, h: Hoop, bytes: &[u8]) -> bool
    requires { length bytes.now ≤ 2097152 }
    ensures { result ≡ all_in_hoop h (places_in (first_record_of (pair_row jef)) bytes.now) }
{
    let table = kinds(jef);
    let mut w = look_from(0, 0);
    let end = last_turn(bytes.len(), 4);
    // Kept as while: each turn goes on by its record's own length.
    while w.at < end {
        let Some(next) = look_pair(jef, h, w, &table, bytes) else {
            return false;
        };
        w = next;
    }
    fits_rest(row_of(jef), h, bytes, w)
}

// DST: one record in a turn.
ghost use Rattle.std.specs.Prelude.{◌≡◌, true, false, ◌+◌, ◌≤◌, length};
ghost use Rattle.rules.specs.Hoop.{all_in_hoop};
ghost use Rattle.read_records.specs.Firsts.{first_record_of};
ghost use Rattle.read_records.specs.Tables.{DstSteps};
ghost use Rattle.read_records.specs.declared.Row.TheVariants.{Dst};
ghost use Rattle.read_passes.specs.Told.{places_in};
ghost use Rattle.hoop_records.specs.Rows.{Looking, Looks};

use crate::looks::{Look, hop, look_from, pass_to, sew};
use crate::rest::fits_rest;
use read_passes::last_turn;
use read_records::Row;
use read_records::triples::{dst_dx, dst_dy, dst_steps};
use rules::Hoop;

fn look_triple(h: Hoop, w: Look, xs: &[i32], ys: &[i32], bytes: &[u8]) -> Option<Look>
    requires dst_steps { DstSteps false xs.now × DstSteps true ys.now }
    requires at_in_bounds { w.at + 3 ≤ length bytes.now }
    requires looking { Looking bytes.now w }
    ensures { Looks Dst h bytes.now w result }
{
    let at = w.at;
    let c = bytes[at + 2];
    let dx = dst_dx(xs, bytes[at], bytes[at + 1], c);
    let dy = dst_dy(ys, bytes[at], bytes[at + 1], c);
    if c & 0x83 != 0x83 {
        return sew(h, w, dx, dy, 3);
    }
    if c & 0xF3 == 0xF3 {
        return Some(pass_to(w, bytes.len()));
    }
    Some(hop(w, dx, dy, 3))
}

pub fn fits_triples(h: Hoop, bytes: &[u8]) -> bool
    requires { length bytes.now ≤ 2097152 }
    ensures { result ≡ all_in_hoop h (places_in (first_record_of Dst) bytes.now) }
{
    let xs = dst_steps(false);
    let ys = dst_steps(true);
    let mut w = look_from(0, 0);
    let end = last_turn(bytes.len(), 3);
    // Kept as while: each turn goes on by its record's own length.
    while w.at < end {
        let Some(next) = look_triple(h, w, &xs, &ys, bytes) else {
            return false;
        };
        w = next;
    }
    fits_rest(Row::Dst, h, bytes, w)
}

// Record by record.
ghost use Rattle.std.specs.Prelude.{◌≡◌, ◌<◌, length};
ghost use Rattle.read_passes.specs.Walks.{events_from};
ghost use Rattle.hoop_records.specs.Looks.{fits_from};
ghost use Rattle.hoop_records.specs.Rows.{Looking, Looks};

use crate::looks::{Look, hop, pass_to, sew};
use read_records::{Row, record_at};
use rules::{Hoop, Record};

// A record of any kind.
fn look_record(f: Row, h: Hoop, w: Look, bytes: &[u8]) -> Option<Look>
    requires at_in_bounds { w.at < length bytes.now }
    requires looking { Looking bytes.now w }
    ensures { Looks f h bytes.now w result }
{
    match record_at(f, bytes, w.at) {
        Record::StitchBy { dx, dy, len } => sew(h, w, dx, dy, len),
        Record::JumpBy { dx, dy, len } => Some(hop(w, dx, dy, len)),
        Record::ChangeBy { dx, dy, len } => Some(hop(w, dx, dy, len)),
        Record::Finish => Some(pass_to(w, bytes.len())),
    }
}

// One record after the other, from a look on, to the end.
pub fn fits_rest(f: Row, h: Hoop, bytes: &[u8], first: Look) -> bool
    requires { Looking bytes.now first }
    ensures { result ≡ fits_from h first (events_from f bytes.now first.at) }
{
    let mut w = first;
    // Kept as while: each turn goes on by its record's own length.
    while w.at < bytes.len() {
        let Some(next) = look_record(f, h, w, bytes) else {
            return false;
        };
        w = next;
    }
    true
}

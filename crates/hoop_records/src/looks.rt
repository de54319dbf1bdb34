// Where a look at the places of a file stands, and what a stitch and a jump make of it.
ghost use Rattle.std.specs.Prelude.{◌≡◌, false, pos};
ghost use Rattle.rules.specs.Hoop.{in_hoop};
ghost use Rattle.hoop_records.specs.Looks.{starts_in, stepped, placed_at, sewn, sewn_two, Leads, LeadsTwo};

use read_builder::sum;
use rules::Hoop;

// The place; whether a run is open; and where the next record stands.
// Kept as a flag: the place beside it stands whether a run is open or not.
#[derive(Clone, Copy)]
pub struct Look {
    pub x: i32,
    pub y: i32,
    pub running: bool,
    pub at: usize,
}

// A look at nothing so far, from (x, y) on.
pub fn look_from(x: i32, y: i32) -> Look
    ensures { result ≡ record { x = x; y = y; running = false; at = 0 } }
{
    Look {
        x,
        y,
        running: false,
        at: 0,
    }
}

// Whether a place is in the hoop.
fn holds(h: Hoop, x: i32, y: i32) -> bool
    ensures { result ≡ in_hoop h x y }
{
    ((h.left <= x) & (x <= h.right)) & ((h.top <= y) & (y <= h.bottom))
}

// Whether the place that a stitch leaves is in the hoop. Within a run it has been seen.
fn starts(h: Hoop, w: Look) -> bool
    ensures { result ≡ starts_in h w }
{
    if w.running {
        return true;
    }
    holds(h, w.x, w.y)
}

// A stitch by (dx, dy), in so many bytes. It opens a run if none is open.
pub fn sew(h: Hoop, w: Look, dx: i32, dy: i32, len: usize) -> Option<Look>
    requires { Leads w dx dy len }
    ensures { result ≡ sewn h w dx dy len }
{
    let x = sum(w.x, dx);
    let y = sum(w.y, dy);
    if !starts(h, w) {
        return None;
    }
    if !holds(h, x, y) {
        return None;
    }
    Some(Look {
        x,
        y,
        running: true,
        at: w.at + len,
    })
}

// Two stitches in so many bytes each.
pub fn sew_two(h: Hoop, w: Look, dx: i32, dy: i32, ex: i32, ey: i32, len: usize) -> Option<Look>
    requires { LeadsTwo w dx dy ex ey len }
    ensures { result ≡ sewn_two h w dx dy ex ey len }
{
    let one = sew(h, w, dx, dy, len)?;
    sew(h, one, ex, ey, len)
}

// A jump or colour change by (dx, dy), in so many bytes. It ends the run.
pub fn hop(w: Look, dx: i32, dy: i32, len: usize) -> Look
    requires { Leads w dx dy len }
    ensures { result ≡ stepped false w dx dy len }
{
    Look {
        x: sum(w.x, dx),
        y: sum(w.y, dy),
        running: false,
        at: w.at + len,
    }
}

// Nothing is done up to byte `at`.
pub fn pass_to(w: Look, at: usize) -> Look
    ensures { result ≡ placed_at w at }
{
    Look { at, ..w }
}

// Stitches that may lead beyond 32 bits are followed place by place.
ghost use Rattle.std.specs.Prelude.{◌≡◌, false, true, ◌+◌, ◌-◌, ◌*◌, ◌≤◌, ◌<◌, ◌^◌, nat_abs, ◌+ℤ◌, length};
ghost use Rattle.rules.specs.Vp3.{stitch_events};
ghost use Rattle.read_vp3_stitches.specs.Tallies.{Spare};
ghost use Rattle.read_vp3_stitches.specs.Ways.{followed, stitch_way, Follows};

use crate::count::count_stitches;
use crate::steps::{Step, step_at};
use read_count::tally::{Tally, tally_one};

// What has been counted, the place, and the byte that is read next.
#[derive(Clone, Copy)]
pub struct Way {
    pub t: Tally,
    pub x: i32,
    pub y: i32,
    pub at: usize,
}

// A stitch by (dx, dy).
fn follow_stitch(w: Way, dx: i32, dy: i32, len: usize) -> Option<Way>
    requires { Spare w.t 1 × (w.at + len < 2 ^ 63) }
    ensures { result ≡ stitch_way w dx dy len }
{
    let x = w.x.checked_add(dx)?;
    let y = w.y.checked_add(dy)?;
    Some(Way {
        t: tally_one(w.t, 1),
        x,
        y,
        at: w.at + len,
    })
}

// One step of any kind.
fn follow_step(w: Way, bytes: &[u8]) -> Option<Way>
    requires { (w.at < length bytes.now) × ((length bytes.now < 2 ^ 62) × Spare w.t (length bytes.now - w.at)) }
    ensures { Follows bytes.now w result }
{
    match step_at(bytes, w.at) {
        Step::Stitch { dx, dy, len } => follow_stitch(w, dx, dy, len),
        Step::EndRun => Some(Way {
            t: tally_one(w.t, 0),
            at: w.at + 2,
            ..w
        }),
        Step::Nothing => Some(Way { at: w.at + 2, ..w }),
        Step::Finish => Some(Way {
            at: bytes.len(),
            ..w
        }),
    }
}

fn follow_stitches(bytes: &[u8], x: i32, y: i32, t: Tally) -> Option<Tally>
    requires { (length bytes.now < 2 ^ 62) × Spare t (length bytes.now) }
    ensures { result ≡ followed t x y (stitch_events bytes.now) }
{
    let mut w = Way { t, x, y, at: 0 };
    // Kept as while: each turn goes on by its step's own length.
    while w.at < bytes.len() {
        w = follow_step(w, bytes)?;
    }
    Some(w.t)
}

// So near to 0 that n bytes of stitches cannot lead beyond 32 bits: none moves more than 5,462 a byte.
fn is_near(z: i32, n: usize) -> bool
    requires { n ≤ 2097152 }
    ensures { result ≡ true → nat_abs z + 5462 * n < 2 ^ 31 }
{
    let far = 2147483647 - 5462 * (n as i64);
    let z = z as i64;
    -far <= z && z <= far
}

// What the stitches of a block that starts at (x, y) count to.
pub fn follow(bytes: &[u8], x: i32, y: i32, t: Tally) -> Option<Tally>
    requires { (length bytes.now ≤ 2097152) × Spare t (length bytes.now) }
    ensures { result ≡ followed t x y (stitch_events bytes.now) }
{
    if is_near(x, bytes.len()) && is_near(y, bytes.len()) {
        return Some(count_stitches(bytes, t));
    }
    follow_stitches(bytes, x, y, t)
}

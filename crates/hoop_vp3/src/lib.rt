// VP3: whether all places of a file without fault are in a hoop, block after block.
#![tactic(auto)]

ghost use Rattle.std.specs.Prelude.{◌≡◌, false, suc, ◌+◌, ◌≤◌, pos, length, drop, Ok};
ghost use Rattle.rules.specs.Answers.{places};
ghost use Rattle.rules.specs.Hoop.{all_in_hoop};
ghost use Rattle.rules.specs.Vp3.{blocks_from, vp3_blocks, stitch_events, events_in, strays, fault_in};
ghost use Rattle.read_vp3_fields.specs.Fields.{within};
ghost use Rattle.hoop_records.specs.Looks.{fits_from};
ghost use Rattle.hoop_vp3.specs.Stitches.{Looking, Looks};
ghost use Rattle.hoop_vp3.specs.Blocks.{Ready, Passes};

use hoop_records::looks::{Look, hop, look_from, pass_to, sew, sew_two};
use read_passes::last_turn;
use read_records::bytes::s8;
use read_vp3_fields::{block_at, design_of};
use read_vp3_stitches::steps::{Step, step_at};
use rules::Hoop;

// One step of any kind.
// It and `look_pair` are to be inlined: else each stitch hands an `Option` on, and a file of plain stitches takes a quarter longer.
#[inline(always)]
fn look_step(h: Hoop, w: Look, bytes: &[u8]) -> Option<Look>
    requires { Looking bytes.now w }
    ensures { Looks h bytes.now w result }
{
    match step_at(bytes, w.at) {
        Step::Stitch { dx, dy, len } => sew(h, w, dx, dy, len),
        Step::EndRun => Some(hop(w, 0, 0, 2)),
        Step::Nothing => Some(pass_to(w, w.at + 2)),
        Step::Finish => Some(pass_to(w, bytes.len())),
    }
}

// Two stitches of a pair each, or one step.
#[inline(always)]
fn look_pair(h: Hoop, w: Look, bytes: &[u8]) -> Option<Look>
    requires at_in_bounds { w.at + 4 ≤ length bytes.now }
    requires looking { Looking bytes.now w }
    ensures { Looks h bytes.now w result }
{
    let at = w.at;
    if bytes[at] == 0x80 {
        return look_step(h, w, bytes);
    }
    let dx = s8(bytes[at]);
    let dy = s8(bytes[at + 1]);
    if bytes[at + 2] == 0x80 {
        return sew(h, w, dx, dy, 2);
    }
    sew_two(h, w, dx, dy, s8(bytes[at + 2]), s8(bytes[at + 3]), 2)
}

// One step after the other, from a look on, to the end.
fn fits_rest(h: Hoop, bytes: &[u8], first: Look) -> bool
    requires { Looking bytes.now first }
    ensures { result ≡ fits_from h first (stitch_events (drop first.at bytes.now)) }
{
    let mut w = first;
    // Kept as while: each turn goes on by its step's own length.
    while w.at < bytes.len() {
        let Some(next) = look_step(h, w, bytes) else {
            return false;
        };
        w = next;
    }
    true
}

// The stitches of a block that starts at (x, y).
fn fits_stitches(h: Hoop, bytes: &[u8], x: i32, y: i32) -> bool
    requires bytes_len_bound { length bytes.now ≤ 2097152 }
    requires bytes_value { strays x y (stitch_events bytes.now) ≡ false }
    ensures { result ≡ all_in_hoop h (places x y 0 (stitch_events bytes.now)) }
{
    let mut w = look_from(x, y);
    let end = last_turn(bytes.len(), 4);
    // Kept as while: each turn goes on by its step's own length.
    while w.at < end {
        let Some(next) = look_pair(h, w, bytes) else {
            return false;
        };
        w = next;
    }
    fits_rest(h, bytes, w)
}

// Where the next block starts, and where its fields begin.
#[derive(Clone, Copy)]
struct Start {
    x: i32,
    y: i32,
    at: usize,
}

// One colour block, which n more follow, of a design part that ends at `end`.
fn fits_block(h: Hoop, file: &[u8], end: usize, n: usize, s: Start) -> Option<Start>
    requires { Ready file.now end (suc n) s }
    ensures { Passes h file.now end n s result }
{
    let k = block_at(file, s.at, end, 0 < n, s.x, s.y).unwrap();
    if !fits_stitches(h, &file[k.at..k.end], s.x, s.y) {
        return None;
    }
    Some(Start {
        x: k.x,
        y: k.y,
        at: k.next,
    })
}

// So many colour blocks, of a design part that ends at `end`.
fn fits_blocks(h: Hoop, file: &[u8], from: usize, end: usize, count: usize) -> bool
    requires from_le_end { (from ≤ end) × ((end ≤ length file.now) × (length file.now ≤ 2097152)) }
    requires end_value { fault_in (blocks_from count (pos 0) (pos 0) (within file.now from end)) ≡ Ok tt }
    ensures { result ≡ all_in_hoop h (places (pos 0) (pos 0) 0 (events_in (blocks_from count (pos 0) (pos 0) (within file.now from end)))) }
{
    let mut s = Start {
        x: 0,
        y: 0,
        at: from,
    };
    for n in (0..count).rev() {
        let Some(next) = fits_block(h, file, end, n, s) else {
            return false;
        };
        s = next;
    }
    true
}

// A file without fault.
pub fn fits(h: Hoop, file: &[u8]) -> bool
    requires in_bounds { (6 ≤ length file.now) × (length file.now ≤ 2097152) }
    requires file_value { fault_in (vp3_blocks file.now) ≡ Ok tt }
    ensures { result ≡ all_in_hoop h (places (pos 0) (pos 0) 0 (events_in (vp3_blocks file.now))) }
{
    let design = design_of(file).unwrap();
    fits_blocks(h, file, design.at, design.end, design.count)
}

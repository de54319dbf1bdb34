// DST: one record in a turn. The cuts are counted on the way.
// A port of src/formats/read.rs of zigzag, changed.
ghost use Rattle.std.specs.Prelude.{◌≡◌, true, false, ℕ, ◌+◌, ◌≤◌, ◌<◌, length};
ghost use Rattle.read_records.specs.declared.Row.TheVariants.{Dst};
ghost use Rattle.read_builder.specs.Builders.{origin};
ghost use Rattle.read_records.specs.Tables.{DstSteps};
ghost use Rattle.read_fill.specs.Turns.{Room, Turns, Ends};
ghost use Rattle.read_fill.specs.Cutting.{Cutting, RowsOf, turn_to, turn_of};

use read_builder::cuts::{cuts_after_stitch, since_after_jump};
use read_builder::{Builder, new};
use read_passes::answers::{change, hop, sew};
use read_passes::fill_rest;
use read_records::Row;
use read_records::triples::{dst_dx, dst_dy, dst_steps};

// The builder after all records, and the cuts of a DST.
#[derive(Clone, Copy)]
pub struct Filled {
    pub b: Builder,
    pub rows: u32,
}

// After a turn: the builder; what is counted of the cuts, in numbers that do not lie side by side (see `cuts.rt`); and the place of the
// next record.
#[derive(Clone, Copy)]
struct TripleTurn {
    b: Builder,
    since: u32,
    at: usize,
    cuts: u32,
}

fn turned(b: Builder, since: u32, cuts: u32, at: usize) -> TripleTurn
    ensures { result ≡ turn_to b since cuts at }
{
    TripleTurn { b, since, at, cuts }
}

// A stitch within a run follows a stitch, and ends no row of jumps. The cuts are counted last in each turn: counted before `sew` and `hop`
// they cost every record.
fn turn_triple(
    b: Builder,
    since: u32,
    cuts: u32,
    xs: &[i32],
    ys: &[i32],
    bytes: &[u8],
    at: usize,
    colors: &[u32],
    places: &mut [i32],
    runs: &mut [u32],
    blocks: &mut [u32],
) -> TripleTurn
    requires dst_steps { DstSteps false xs.now × DstSteps true ys.now }
    requires at_in_bounds { at + 3 ≤ length bytes.now }
    requires room { Room Dst bytes colors b at places runs blocks }
    requires cutting { Cutting bytes.now b since cuts at }
    ensures turns { Turns Dst bytes.now colors.now b at places runs blocks (turn_of result) }
    ensures cutting_2 { Cutting bytes.now result.b result.since result.cuts result.at }
{
    let c = bytes[at + 2];
    let dx = dst_dx(xs, bytes[at], bytes[at + 1], c);
    let dy = dst_dy(ys, bytes[at], bytes[at + 1], c);
    if c & 0x83 != 0x83 {
        if b.run == 0 {
            return turned(
                sew(b, dx, dy, places),
                1,
                cuts_after_stitch(since, cuts),
                at + 3,
            );
        }
        return turned(sew(b, dx, dy, places), since, cuts, at + 3);
    }
    if c & 0xF3 == 0xF3 {
        return turned(b, since, cuts, bytes.len());
    }
    if c & 0xC3 == 0xC3 {
        return turned(change(b, dx, dy, colors, runs, blocks), 0, cuts, at + 3);
    }
    turned(hop(b, dx, dy, runs), since_after_jump(since), cuts, at + 3)
}

// Up to where a whole record may begin.
fn whole_records(len: usize) -> usize
    ensures by_index { (at : ℕ) → at < result → at + 3 ≤ len }
    ensures by_index_2 { (at : ℕ) → result ≤ at → len < at + 3 }
{
    if len < 3 {
        return 0;
    }
    len - 2
}

pub fn fill_triples(
    bytes: &[u8],
    colors: &[u32],
    places: &mut [i32],
    runs: &mut [u32],
    blocks: &mut [u32],
) -> Filled
    requires { Room Dst bytes colors origin 0 places runs blocks }
    ensures ends { Ends Dst bytes.now colors.now places runs blocks result.b }
    ensures rows_of { RowsOf Dst bytes.now result.rows }
{
    let xs = dst_steps(false);
    let ys = dst_steps(true);
    let mut b = new();
    let mut since: u32 = 0;
    let mut cuts: u32 = 0;
    let mut at: usize = 0;
    let end = whole_records(bytes.len());
    // Kept as while: each turn goes on by its record's own length.
    while at < end {
        let t = turn_triple(
            b, since, cuts, &xs, &ys, bytes, at, colors, places, runs, blocks,
        );
        b = t.b;
        since = t.since;
        cuts = t.cuts;
        at = t.at;
    }
    Filled {
        b: fill_rest(Row::Dst, bytes, at, b, colors, places, runs, blocks),
        rows: cuts,
    }
}

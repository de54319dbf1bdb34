// The second pass over the records: the answers go to the front of the buffers. Each format has a loop of its own, whose turn takes one
// record or a few at once; what is left is read record by record. All goes through the builder.
// A port of src/formats/read.rs of zigzag, changed.
#![tactic(auto)]

pub mod pairs;
pub mod steps;
pub mod triples;

ghost use Rattle.std.specs.Prelude.{◌≡◌, ◌≤◌, length, Ok};
ghost use Rattle.rules.specs.Files.{filled};
ghost use Rattle.read_records.specs.Firsts.{first_record_of};
ghost use Rattle.read_builder.specs.Builders.{origin};
ghost use Rattle.read_builder.specs.Colour.{colour_in};
ghost use Rattle.read_passes.specs.Told.{places_in, runs_in, blocks_in, Told, Fits};
ghost use Rattle.read_fill.specs.Turns.{Room, Ends};
ghost use Rattle.read_fill.specs.Cutting.{RowsOf, with_rows};

use crate::pairs::fill_pairs;
use crate::steps::fill_steps;
use crate::triples::{Filled, fill_triples};
use read_builder::Builder;
use read_passes::settle;
use read_records::Row;
use rules::Counts;

// The other formats have no rows to count.
fn no_rows(b: Builder) -> Filled
    ensures { result.b ≡ b }
{
    Filled { b, rows: 0 }
}

// All records.
fn fill_records(
    f: Row,
    bytes: &[u8],
    colors: &[u32],
    places: &mut [i32],
    runs: &mut [u32],
    blocks: &mut [u32],
) -> Filled
    requires { Room f bytes colors origin 0 places runs blocks }
    ensures ends { Ends f bytes.now colors.now places runs blocks result.b }
    ensures rows_of { RowsOf f bytes.now result.rows }
{
    match f {
        Row::Pec => no_rows(fill_steps(bytes, colors, places, runs, blocks)),
        Row::Dst => fill_triples(bytes, colors, places, runs, blocks),
        Row::Exp => no_rows(fill_pairs(false, bytes, colors, places, runs, blocks)),
        Row::Jef => no_rows(fill_pairs(true, bytes, colors, places, runs, blocks)),
    }
}

// The cuts of a DST are its rows.
fn with_rows(f: Row, c: Counts, rows: u32) -> Counts
    ensures { result ≡ with_rows f c rows }
{
    match f {
        Row::Pec => c,
        Row::Dst => Counts { cuts: rows, ..c },
        Row::Exp => c,
        Row::Jef => c,
    }
}

// Writes the answers to the front of the buffers.
pub fn fill(
    f: Row,
    bytes: &[u8],
    colors: &[u32],
    places: &mut [i32],
    runs: &mut [u32],
    blocks: &mut [u32],
) -> Counts
    requires bytes_len_bound { length bytes.now ≤ 2097152 }
    requires fits { Fits (colour_in colors.now) (first_record_of f) bytes.now (length places.old) (length runs.old) (length blocks.old) }
    ensures told { Told f bytes.now result }
    ensures places_value { places.new ≡ filled (Ok tt) (places_in (first_record_of f) bytes.now) places.old }
    ensures runs_value { runs.new ≡ filled (Ok tt) (runs_in (first_record_of f) bytes.now) runs.old }
    ensures blocks_value { blocks.new ≡ filled (Ok tt) (blocks_in (colour_in colors.now) (first_record_of f) bytes.now) blocks.old }
{
    let q = fill_records(f, bytes, colors, places, runs, blocks);
    let b = q.b;
    let c = settle(b, colors, runs, blocks);
    with_rows(f, c, q.rows)
}

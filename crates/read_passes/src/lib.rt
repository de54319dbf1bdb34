// The two passes over the records of a file, in what they share: what a record adds to the answers, and the plain loop.
// A port of src/formats/read.rs of zigzag, changed.
#![tactic(auto)]

pub mod answers;

ghost use Rattle.std.specs.Prelude.{true, ◌≡◌, ℕ, ◌+◌, ◌*◌, ◌≤◌, ◌<◌, length};
ghost use Rattle.std.proofs.lemmas.List.Edits.{sets};
ghost use Rattle.rules.specs.Answers.{run_of, block_of};
ghost use Rattle.rules.specs.Limits.{block_cells_of};
ghost use Rattle.read_builder.specs.Builders.{Small, Counted, finished};
ghost use Rattle.read_builder.specs.Colour.{colour_in};
ghost use Rattle.read_passes.specs.Told.{Ample, sizes_of};
ghost use Rattle.read_passes.specs.Walks.{Ready, Ended};

use crate::answers::{close, write};
use read_builder::{Builder, counts, finish, place_after};
use read_records::{Row, record_at};
use rules::{BLOCK_CELLS, Counts};

// The builder after what has been read, and the byte that is read next.
#[derive(Clone, Copy)]
pub struct Turn {
    pub b: Builder,
    pub at: usize,
}

// How much the answers hold: points, runs and blocks listed.
#[derive(Clone, Copy)]
pub struct Sizes {
    pub points: u32,
    pub runs: u32,
    pub blocks: u32,
}

pub fn sizes_of(c: Counts) -> Sizes
    ensures { result ≡ sizes_of c }
{
    Sizes {
        points: c.points,
        runs: c.runs,
        blocks: c.blocks,
    }
}

// One record after the other, from byte `from` on, to the end.
pub fn fill_rest(
    f: Row,
    bytes: &[u8],
    from: usize,
    first: Builder,
    colors: &[u32],
    places: &mut [i32],
    runs: &mut [u32],
    blocks: &mut [u32],
) -> Builder
    requires { Ready f bytes.now (colour_in colors.now) first from (length places.old) (length runs.old) (length blocks.old) }
    ensures { Ended f bytes.now (colour_in colors.now) first from places.old runs.old blocks.old result places.new runs.new blocks.new }
{
    let mut b = first;
    let mut at = from;
    // Kept as while: each turn goes on by its record's own length.
    while at < bytes.len() {
        let r = record_at(f, bytes, at);
        b = write(b, r, colors, places, runs, blocks);
        at = place_after(r, at, bytes.len());
    }
    b
}

// Nothing more comes: the run and the block that are open are put, and all is counted.
pub fn settle(b: Builder, colors: &[u32], runs: &mut [u32], blocks: &mut [u32]) -> Counts
    requires small { Small b }
    requires b_bound { (finished b).blocks ≤ (finished b).runs }
    requires run_in_bounds { b.runs + length (run_of b.run) ≤ length runs.old }
    requires begun_in_bounds { block_cells_of * b.blocks + length (block_of (colour_in colors.now) b.block b.begun) ≤ length blocks.old }
    ensures counted { Counted (finished b) result }
    ensures runs_value { runs.new ≡ sets runs.old b.runs (run_of b.run) }
    ensures blocks_value { blocks.new ≡ sets blocks.old (block_cells_of * b.blocks) (block_of (colour_in colors.now) b.block b.begun) }
{
    close(b, colors, runs, blocks);
    counts(finish(b))
}

// Whether buffers of these lengths hold the answers of any n bytes, so that nothing need be counted first.
pub fn ample(n: usize, places: usize, runs: usize, blocks: usize) -> bool
    requires { n ≤ 2097152 }
    ensures { result ≡ true → Ample n places runs blocks }
{
    if places < n + 2 {
        return false;
    }
    if runs < n / 2 {
        return false;
    }
    BLOCK_CELLS * n / 2 <= blocks
}

// Up to where a turn that looks at n bytes may begin.
pub fn last_turn(len: usize, n: usize) -> usize
    requires { 1 ≤ n }
    ensures { (at : ℕ) → at < result → at + n ≤ len }
{
    if len < n {
        return 0;
    }
    len - (n - 1)
}

// VP3 files: a first pass finds the first fault, or what the answers hold; a second one writes the answers.
#![tactic(auto)]

ghost use Rattle.std.specs.Prelude.{◌≡◌, suc, ◌≤◌, pos, length, Ok};
ghost use Rattle.rules.specs.Vp3.{blocks_from, vp3_blocks, fault_in};
ghost use Rattle.read_vp3_fields.specs.Fields.{within};
ghost use Rattle.read_vp3.specs.Walks.{Stands, Walks, Lies, walk_of, Checks};
ghost use Rattle.read_vp3.specs.Fills.{Ready, Fills, Fits, Filled};

use read_builder::{color_change, new};
use read_count::tally::{counts, none, tally_change};
use read_header::number_of;
use read_passes::Turn;
use read_passes::answers::{put_block, put_run};
use read_vp3_fields::{Block, block_at, design_of};
use read_vp3_stitches::fill::fill_stitches;
use read_vp3_stitches::follow::{Way, follow};
use rules::{Counts, Refusal};

// The stitches of a block.
fn check_stitches(file: &[u8], k: Block, w: Way) -> Result<Way, Refusal>
    requires { Stands file.now (length file.now) w × Lies (length file.now) k w }
    ensures { result ≡ walk_of file.now k w }
{
    let t = follow(&file[k.at..k.end], w.x, w.y, w.t).ok_or(Refusal::OutOfRange)?;
    Ok(Way {
        t: tally_change(t),
        x: k.x,
        y: k.y,
        at: k.next,
    })
}

// One colour block, which n more follow, of a design part that ends at `end`.
fn check_block(file: &[u8], end: usize, n: usize, w: Way) -> Result<Way, Refusal>
    requires { Stands file.now end w }
    ensures { Walks file.now end n w result }
{
    let k = block_at(file, w.at, end, 0 < n, w.x, w.y)?;
    check_stitches(file, k, w)
}

// So many colour blocks, of a design part that ends at `end`.
fn check_blocks(file: &[u8], from: usize, end: usize, count: usize) -> Result<Counts, Refusal>
    requires { (from ≤ end) × ((end ≤ length file.now) × (length file.now ≤ 2097152)) }
    ensures { Checks (blocks_from count (pos 0) (pos 0) (within file.now from end)) result }
{
    let mut w = Way {
        t: none(),
        x: 0,
        y: 0,
        at: from,
    };
    for n in (0..count).rev() {
        w = check_block(file, end, n, w)?;
    }
    Ok(counts(w.t))
}

// The first pass over a file that begins as it must.
pub fn check(file: &[u8]) -> Result<Counts, Refusal>
    requires { (6 ≤ length file.now) × (length file.now ≤ 2097152) }
    ensures { Checks (vp3_blocks file.now) result }
{
    let design = design_of(file)?;
    check_blocks(file, design.at, design.end, design.count)
}

// One colour block, which n more follow, of a design part that ends at `end`.
fn fill_block(
    file: &[u8],
    end: usize,
    n: usize,
    f: Turn,
    places: &mut [i32],
    runs: &mut [u32],
    blocks: &mut [u32],
) -> Turn
    requires { Ready file.now end (suc n) f (length places.old) (length runs.old) (length blocks.old) }
    ensures { Fills file.now end n f places.old places.new runs.old runs.new blocks.old blocks.new result }
{
    let k = block_at(file, f.at, end, 0 < n, f.b.x, f.b.y).unwrap();
    let b = fill_stitches(&file[k.at..k.end], f.b, places, runs);
    put_run(b, runs);
    put_block(b, number_of(k.color), blocks);
    Turn {
        b: color_change(b, k.x, k.y),
        at: k.next,
    }
}

fn fill_blocks(
    file: &[u8],
    from: usize,
    end: usize,
    count: usize,
    places: &mut [i32],
    runs: &mut [u32],
    blocks: &mut [u32],
)
    requires from_le_end { (from ≤ end) × ((end ≤ length file.now) × (length file.now ≤ 2097152)) }
    requires end_value { fault_in (blocks_from count (pos 0) (pos 0) (within file.now from end)) ≡ Ok tt }
    requires fits { Fits (blocks_from count (pos 0) (pos 0) (within file.now from end)) (length places.old) (length runs.old) (length blocks.old) }
    ensures { Filled (blocks_from count (pos 0) (pos 0) (within file.now from end)) places.old places.new runs.old runs.new blocks.old blocks.new }
{
    let mut f = Turn { b: new(), at: from };
    for n in (0..count).rev() {
        f = fill_block(file, end, n, f, places, runs, blocks);
    }
}

// The second pass over a file without fault: the answers go to the front of the buffers.
pub fn fill(file: &[u8], places: &mut [i32], runs: &mut [u32], blocks: &mut [u32])
    requires in_bounds { (6 ≤ length file.now) × (length file.now ≤ 2097152) }
    requires file_value { fault_in (vp3_blocks file.now) ≡ Ok tt }
    requires fits { Fits (vp3_blocks file.now) (length places.old) (length runs.old) (length blocks.old) }
    ensures { Filled (vp3_blocks file.now) places.old places.new runs.old runs.new blocks.old blocks.new }
{
    let design = design_of(file).unwrap();
    fill_blocks(
        file,
        design.at,
        design.end,
        design.count,
        places,
        runs,
        blocks,
    );
}

// What goes into the three buffers, each cell once and in order.
// A port of src/formats/read.rs of zigzag, changed.
ghost use Rattle.std.specs.Prelude.{◌≡◌, [], ◌∷◌, ◌++◌, ◌+◌, ◌*◌, ◌≤◌, ◌+ℤ◌, length};
ghost use Rattle.std.proofs.lemmas.List.Edits.{sets};
ghost use Rattle.rules.specs.Answers.{start_of, run_of, block_of};
ghost use Rattle.rules.specs.Limits.{block_cells_of};
ghost use Rattle.read_records.specs.Fields.{dx_of, dy_of};
ghost use Rattle.read_builder.specs.Builders.{Small, Reach, stitched, jumped, changed, followed, places_by, runs_by, blocks_by, Holds};
ghost use Rattle.read_builder.specs.Colour.{colour_in};

use read_builder::colors::color_of;
use read_builder::{Builder, color_change, jump, stitch, sum};
use rules::{BLOCK_CELLS, Record};

// Point i of all points.
fn put_point(places: &mut [i32], i: u32, x: i32, y: i32)
    requires { 2 * i + 2 ≤ length places.old }
    ensures { places.new ≡ sets places.old (2 * i) (x ∷ y ∷ []) }
{
    let at = 2 * (i as usize);
    places[at] = x;
    places[at + 1] = y;
}

// The open run, if there is one.
pub fn put_run(b: Builder, runs: &mut [u32])
    requires { b.runs + length (run_of b.run) ≤ length runs.old }
    ensures { runs.new ≡ sets runs.old b.runs (run_of b.run) }
{
    if b.run == 0 {
        return;
    }
    let at = b.runs as usize;
    runs[at] = b.run;
}

// The block, if it has runs: number, colour, runs.
pub fn put_block(b: Builder, color: u32, blocks: &mut [u32])
    requires { block_cells_of * b.blocks + length (block_of (λ k. color) b.block b.begun) ≤ length blocks.old }
    ensures { blocks.new ≡ sets blocks.old (block_cells_of * b.blocks) (block_of (λ k. color) b.block b.begun) }
{
    if b.begun == 0 {
        return;
    }
    let at = BLOCK_CELLS * (b.blocks as usize);
    blocks[at] = b.block;
    blocks[at + 1] = color;
    blocks[at + 2] = b.begun;
}

// The run and the block that are open when nothing more comes.
pub fn close(b: Builder, colors: &[u32], runs: &mut [u32], blocks: &mut [u32])
    requires run_in_bounds { b.runs + length (run_of b.run) ≤ length runs.old }
    requires begun_in_bounds { block_cells_of * b.blocks + length (block_of (colour_in colors.now) b.block b.begun) ≤ length blocks.old }
    ensures runs_value { runs.new ≡ sets runs.old b.runs (run_of b.run) }
    ensures blocks_value { blocks.new ≡ sets blocks.old (block_cells_of * b.blocks) (block_of (colour_in colors.now) b.block b.begun) }
{
    put_run(b, runs);
    put_block(b, color_of(colors, b.block), blocks);
}

// A stitch by (dx, dy). The place that it leaves is put too, where it opens a run. Each branch has a call of its own, so that the
// compiler knows there whether a run is open.
pub fn sew(b: Builder, dx: i32, dy: i32, places: &mut [i32]) -> Builder
    requires small { Small b }
    requires reach { Reach b dx dy }
    requires y_in_bounds { 2 * b.points + (length (start_of b.run b.x b.y) + 2) ≤ length places.old }
    ensures value { result ≡ stitched b (b.x +ℤ dx) (b.y +ℤ dy) }
    ensures places_value { places.new ≡ sets places.old (2 * b.points) (start_of b.run b.x b.y ++ (b.x +ℤ dx) ∷ (b.y +ℤ dy) ∷ []) }
{
    let x = sum(b.x, dx);
    let y = sum(b.y, dy);
    if b.run == 0 {
        put_point(places, b.points, b.x, b.y);
        put_point(places, b.points + 1, x, y);
        return stitch(b, x, y);
    }
    put_point(places, b.points, x, y);
    stitch(b, x, y)
}

// A jump by (dx, dy), which ends the run.
pub fn hop(b: Builder, dx: i32, dy: i32, runs: &mut [u32]) -> Builder
    requires small { Small b }
    requires reach { Reach b dx dy }
    requires run_in_bounds { b.runs + length (run_of b.run) ≤ length runs.old }
    ensures value { result ≡ jumped b (b.x +ℤ dx) (b.y +ℤ dy) }
    ensures runs_value { runs.new ≡ sets runs.old b.runs (run_of b.run) }
{
    let x = sum(b.x, dx);
    let y = sum(b.y, dy);
    if b.run == 0 {
        return jump(b, x, y);
    }
    put_run(b, runs);
    jump(b, x, y)
}

// A colour change, which ends run and block and then moves by (dx, dy).
pub fn change(
    b: Builder,
    dx: i32,
    dy: i32,
    colors: &[u32],
    runs: &mut [u32],
    blocks: &mut [u32],
) -> Builder
    requires small { Small b }
    requires reach { Reach b dx dy }
    requires run_in_bounds { b.runs + length (run_of b.run) ≤ length runs.old }
    requires begun_in_bounds { block_cells_of * b.blocks + length (block_of (colour_in colors.now) b.block b.begun) ≤ length blocks.old }
    ensures value { result ≡ changed b (b.x +ℤ dx) (b.y +ℤ dy) }
    ensures runs_value { runs.new ≡ sets runs.old b.runs (run_of b.run) }
    ensures blocks_value { blocks.new ≡ sets blocks.old (block_cells_of * b.blocks) (block_of (colour_in colors.now) b.block b.begun) }
{
    let x = sum(b.x, dx);
    let y = sum(b.y, dy);
    close(b, colors, runs, blocks);
    color_change(b, x, y)
}

// What a record of any kind adds to the answers, and the builder after it.
// Kept as a match on the record: four arms, each one call.
pub fn write(
    b: Builder,
    r: Record,
    colors: &[u32],
    places: &mut [i32],
    runs: &mut [u32],
    blocks: &mut [u32],
) -> Builder
    requires small { Small b }
    requires reach { Reach b (dx_of r) (dy_of r) }
    requires holds { Holds (colour_in colors.now) b r (length places.old) (length runs.old) (length blocks.old) }
    ensures value { result ≡ followed b r (b.x +ℤ dx_of r) (b.y +ℤ dy_of r) }
    ensures places_value { places.new ≡ sets places.old (2 * b.points) (places_by b r) }
    ensures runs_value { runs.new ≡ sets runs.old b.runs (runs_by b r) }
    ensures blocks_value { blocks.new ≡ sets blocks.old (block_cells_of * b.blocks) (blocks_by (colour_in colors.now) b r) }
{
    match r {
        Record::StitchBy { dx, dy, .. } => sew(b, dx, dy, places),
        Record::JumpBy { dx, dy, .. } => hop(b, dx, dy, runs),
        Record::ChangeBy { dx, dy, .. } => change(b, dx, dy, colors, runs, blocks),
        Record::Finish => b,
    }
}

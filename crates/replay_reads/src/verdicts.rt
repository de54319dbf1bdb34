// Whether the port reads a case as the Rust did.
use super::bytes::extension;
use super::walk::walked;
use read_header::part;
use replay::bytes::{byte, word};
use replay::{Outcome, stays, verdict};
use rules::{BLOCK_CELLS, Counts, Refusal};

// Every cell of a buffer that is passed to a call has a mark before it, so that a write shows.
pub const PLACE: i32 = -2023406815;

pub const CELL: u32 = 2271560481;

// The stored answer is the refusal alone, and nothing was written.
fn unread(
    told: &[u8],
    label: &[u8],
    why: Refusal,
    places: &[i32],
    runs: &[u32],
    blocks: &[u32],
) -> bool {
    told.len() == 1
        && (byte(told, 0) as u32) == write_refusals::number(why)
        && label.len() == 0
        && stays(places, 0, PLACE)
        && stays(runs, 0, CELL)
        && stays(blocks, 0, CELL)
}

// Cells past the answer are as they were.
fn rest_stays(c: Counts, places: &[i32], runs: &[u32], blocks: &[u32]) -> bool {
    stays(places, 2 * (c.points as usize), PLACE)
        && stays(runs, c.runs as usize, CELL)
        && stays(blocks, BLOCK_CELLS * (c.blocks as usize), CELL)
}

// The blocks of the stored answer, behind the cuts and their count; and the counts.
fn blocks_same(told: &[u8], c: Counts, places: &[i32], runs: &[u32], blocks: &[u32]) -> bool {
    let n = BLOCK_CELLS * (c.blocks as usize);
    if blocks.len() < n {
        return false;
    }
    if told.len() < 4 {
        return false;
    }
    if word(told, 0) != (c.cuts as usize) {
        return false;
    }
    if word(told, 2) != (c.blocks as usize) {
        return false;
    }
    let rest = part(told, 4, 65536);
    let Some(w) = walked(rest, &blocks[..n], runs, places) else {
        return false;
    };
    w.at == rest.len() && w.cell == 2 * (c.points as usize) && w.run == (c.runs as usize)
}

// The stored answer has no refusal, and label, blocks and counts are the same.
fn read_same(
    told: &[u8],
    label: &[u8],
    c: Counts,
    places: &[i32],
    runs: &[u32],
    blocks: &[u32],
) -> bool {
    if byte(told, 0) != 0 {
        return false;
    }
    let n = byte(told, 1) as usize;
    if part(told, 2, n) != label {
        return false;
    }
    if !blocks_same(part(told, 2 + n, 65536), c, places, runs, blocks) {
        return false;
    }
    rest_stays(c, places, runs, blocks)
}

fn agrees(case: &[u8], places: &mut [i32], runs: &mut [u32], blocks: &mut [u32]) -> bool {
    let ext = extension(case);
    let start = 1 + (byte(case, 0) as usize);
    let n = word(case, start);
    let file = part(case, start + 2, n);
    let told = part(case, start + 2 + n, 65536);
    let label = read_refusals::label(ext, file);
    match read::read(ext, file, places, runs, blocks) {
        Ok(c) => read_same(told, label, c, places, runs, blocks),
        Err(why) => unread(told, label, why, places, runs, blocks),
    }
}

// The buffers come marked, and are left so.
pub fn judged(case: &[u8], places: &mut [i32], runs: &mut [u32], blocks: &mut [u32]) -> Outcome {
    let right = agrees(case, places, runs, blocks);
    places.fill(PLACE);
    runs.fill(CELL);
    blocks.fill(CELL);
    verdict(right)
}

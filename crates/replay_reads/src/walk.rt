// Goes through a stored answer beside the port's: for each block its number, its colour and its runs, for each run its points.
ghost use Rattle.std.specs.Prelude.{◌≤◌};

use super::bytes::color;
use read_header::i32le;
use replay::bytes::word;
use rules::BLOCK_CELLS;

// How far the two, the same up to here, were gone through: to a byte of the stored answer, and to a run and a cell of the port's.
#[derive(Clone, Copy)]
pub struct Walk {
    pub at: usize,
    pub run: usize,
    pub cell: usize,
}

// Over n bytes of the stored answer, if they are there and are the same as the port's.
fn step(told: &[u8], w: Walk, n: usize, same: bool) -> Option<Walk> {
    if !same || told.len() < w.at || told.len() - w.at < n {
        return None;
    }
    Some(Walk { at: w.at + n, ..w })
}

fn step_word(told: &[u8], w: Walk, n: u32) -> Option<Walk> {
    step(told, w, 2, word(told, w.at) == (n as usize))
}

fn step_color(told: &[u8], w: Walk, n: u32) -> Option<Walk> {
    step(told, w, 3, color(told, w.at) == (n as usize))
}

fn step_place(told: &[u8], w: Walk, z: i32) -> Option<Walk> {
    step(told, w, 4, i32le(told, w.at)? == z)
}

fn step_places(told: &[u8], w: Walk, cells: &[i32]) -> Option<Walk> {
    let mut v = w;
    for z in cells {
        v = step_place(told, v, *z)?;
    }
    Some(v)
}

// At most n cells from a place on.
fn places_part(s: &[i32], from: usize, n: usize) -> &[i32] {
    let end = past(from, n, s.len());
    let start = from.min(end);
    &s[start..end]
}

// n cells on, but not past the end.
fn past(at: usize, n: usize, end: usize) -> usize
    ensures { result ≤ end }
{
    at.saturating_add(n).min(end)
}

// A run of n points. The number of the run is counted by the caller.
fn step_run(told: &[u8], w: Walk, n: u32, places: &[i32]) -> Option<Walk> {
    let cells = 2 * (n as usize);
    let v = step_word(told, w, n)?;
    let u = step_places(told, v, places_part(places, w.cell, cells))?;
    Some(Walk {
        cell: past(w.cell, cells, places.len()),
        ..u
    })
}

// n runs, if the port has as many.
fn step_runs(told: &[u8], w: Walk, n: u32, runs: &[u32], places: &[i32]) -> Option<Walk> {
    let mut v = w;
    for _ in 0..n {
        let run = v.run;
        if runs.len() <= run {
            return None;
        }
        v = step_run(told, v, runs[run], places)?;
        v.run = run + 1;
    }
    Some(v)
}

fn step_block(
    told: &[u8],
    w: Walk,
    number: u32,
    colour: u32,
    n: u32,
    runs: &[u32],
    places: &[i32],
) -> Option<Walk> {
    let a = step_word(told, w, number)?;
    let b = step_color(told, a, colour)?;
    let c = step_word(told, b, n)?;
    step_runs(told, c, n, runs, places)
}

// All blocks, which the stored answer begins with; none if the two differ.
pub fn walked(told: &[u8], blocks: &[u32], runs: &[u32], places: &[i32]) -> Option<Walk> {
    let mut w = Walk {
        at: 0,
        run: 0,
        cell: 0,
    };
    for b in blocks.chunks_exact(BLOCK_CELLS) {
        w = step_block(told, w, b[0], b[1], b[2], runs, places)?;
    }
    Some(w)
}

// What is printed, line by line. A function that puts bytes into the buffer answers the next `at`.
ghost use Rattle.std.specs.Prelude.{◌≤◌, ◌<◌, length};

use crate::buffer::{Buffer, put_byte, put_decimal, put_text};
use formats::extension_of;
use rules::{BLOCK_CELLS, Counts, Format, Refusal};

// A name and a number.
fn number(out: &mut Buffer, at: usize, name: &[u8], n: u32) -> usize
    requires { at ≤ 65536 }
    ensures { result ≤ 65536 }
{
    let to = put_text(out, at, name);
    put_decimal(out, to, n as u64)
}

fn signed(out: &mut Buffer, at: usize, z: i32) -> usize
    requires { at ≤ 65536 }
    ensures { result ≤ 65536 }
{
    let n = z.unsigned_abs() as u64;
    if z < 0 {
        let to = put_byte(out, at, b'-');
        return put_decimal(out, to, n);
    }
    put_decimal(out, at, n)
}

pub fn refused(out: &mut Buffer, at: usize, why: Refusal) -> usize
    requires { at ≤ 65536 }
    ensures { result ≤ 65536 }
{
    let to = number(out, at, b"refused ", write_refusals::number(why));
    put_byte(out, to, b'\n')
}

// The extension in small letters, if it is a format's.
fn extension(out: &mut Buffer, at: usize, ext: &[u8]) -> usize
    requires { at ≤ 65536 }
    ensures { result ≤ 65536 }
{
    let named = extension_of(ext);
    let Some(f) = named else {
        return at;
    };
    match f {
        Format::Pes => put_text(out, at, b"pes"),
        Format::Pec => put_text(out, at, b"pec"),
        Format::Dst => put_text(out, at, b"dst"),
        Format::Exp => put_text(out, at, b"exp"),
        Format::Jef => put_text(out, at, b"jef"),
        Format::Vp3 => put_text(out, at, b"vp3"),
    }
}

pub fn counts(out: &mut Buffer, at: usize, ext: &[u8], c: Counts) -> usize
    requires { at ≤ 65536 }
    ensures { result ≤ 65536 }
{
    let mut to = extension(out, at, ext);
    to = number(out, to, b" blocks ", c.blocks);
    to = number(out, to, b" runs ", c.runs);
    to = number(out, to, b" points ", c.points);
    to = number(out, to, b" cuts ", c.cuts);
    put_byte(out, to, b'\n')
}

// A byte outside 0x20..0x7E is shown as a dot.
fn visible(b: u8) -> u8 {
    match b {
        0x20..=0x7E => b,
        _ => b'.',
    }
}

pub fn label(out: &mut Buffer, at: usize, s: &[u8]) -> usize
    requires { at ≤ 65536 }
    ensures { result ≤ 65536 }
{
    let mut to = put_text(out, at, b"label [");
    for b in s {
        to = put_byte(out, to, visible(*b));
    }
    put_text(out, to, b"]\n")
}

fn digit(n: u32) -> u8
    requires { n < 16 }
{
    if n < 10 {
        return b'0' + (n as u8);
    }
    b'A' + ((n - 10) as u8)
}

// Two digits.
fn pair(out: &mut Buffer, at: usize, n: u32) -> usize
    requires { at ≤ 65536 }
    ensures { result ≤ 65536 }
{
    let to = put_byte(out, at, digit(n / 16 % 16));
    put_byte(out, to, digit(n % 16))
}

// The line above a block's runs.
fn heading(out: &mut Buffer, at: usize, k: u32, colour: u32, runs: u32) -> usize
    requires { at ≤ 65536 }
    ensures { result ≤ 65536 }
{
    let mut to = number(out, at, b"block ", k);
    to = put_text(out, to, b" colour ");
    to = pair(out, to, colour / 65536);
    to = pair(out, to, colour / 256);
    to = pair(out, to, colour);
    to = number(out, to, b" runs ", runs);
    put_byte(out, to, b'\n')
}

fn point(out: &mut Buffer, at: usize, x: i32, y: i32) -> usize
    requires { at ≤ 65536 }
    ensures { result ≤ 65536 }
{
    let mut to = signed(out, at, x);
    to = put_byte(out, to, b' ');
    to = signed(out, to, y);
    put_byte(out, to, b'\n')
}

// The points of a run, two cells each.
fn points(out: &mut Buffer, at: usize, cells: &[i32]) -> usize
    requires { at ≤ 65536 }
    ensures { result ≤ 65536 }
{
    let mut to = at;
    for p in cells.chunks_exact(2) {
        to = point(out, to, p[0], p[1]);
    }
    to
}

fn wide(n: u32) -> usize
    ensures { result < 4294967296 }
{
    n as usize
}

// n cells on, but not past the end. An answer of `read` is not cut by this.
fn past(at: usize, n: usize, end: usize) -> usize
    requires { at ≤ end }
    ensures { (at ≤ result) × (result ≤ end) }
{
    at + n.min(end - at)
}

// What comes next: a place in the buffer, a cell and a run.
#[derive(Clone, Copy)]
struct Next {
    at: usize,
    cell: usize,
    run: usize,
}

// A run of n points.
fn run(out: &mut Buffer, from: Next, places: &[i32], n: u32) -> Next
    requires { (from.at ≤ 65536) × (from.cell ≤ length places.now) }
    ensures { (result.at ≤ 65536) × (result.cell ≤ length places.now) }
{
    let cell = from.cell;
    let end = past(cell, 2 * wide(n), places.len());
    let mut to = number(out, from.at, b"run ", n);
    to = put_byte(out, to, b'\n');
    let mut next = from;
    next.at = points(out, to, &places[cell..end]);
    next.cell = end;
    next
}

fn block_runs(out: &mut Buffer, from: Next, places: &[i32], runs: &[u32]) -> Next
    requires { (from.at ≤ 65536) × (from.cell ≤ length places.now) }
    ensures { (result.at ≤ 65536) × (result.cell ≤ length places.now) }
{
    let mut next = from;
    for n in runs {
        next = run(out, next, places, *n);
    }
    next
}

// A block of n runs.
fn block(
    out: &mut Buffer,
    from: Next,
    places: &[i32],
    runs: &[u32],
    k: u32,
    colour: u32,
    n: u32,
) -> Next
    requires { (from.at ≤ 65536) × (from.cell ≤ length places.now) × (from.run ≤ length runs.now) }
    ensures { (result.at ≤ 65536) × (result.cell ≤ length places.now) × (result.run ≤ length runs.now) }
{
    let start = from.run;
    let end = past(start, wide(n), runs.len());
    let mut next = from;
    next.at = heading(out, from.at, k, colour, n);
    next = block_runs(out, next, places, &runs[start..end]);
    next.run = end;
    next
}

// The first n blocks with their runs and points.
pub fn blocks(
    out: &mut Buffer,
    at: usize,
    places: &[i32],
    runs: &[u32],
    blocks: &[u32],
    n: u32,
) -> usize
    requires { at ≤ 65536 }
    ensures { result ≤ 65536 }
{
    let last = past(0, BLOCK_CELLS * wide(n), blocks.len());
    let mut next = Next {
        at,
        cell: 0,
        run: 0,
    };
    for b in blocks[..last].chunks_exact(BLOCK_CELLS) {
        next = block(out, next, places, runs, b[0], b[1], b[2]);
    }
    next.at
}

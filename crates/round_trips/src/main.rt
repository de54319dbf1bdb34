// Writes some lists in each format by `write_and_read` and prints what comes back: lengths, counts, label and points, or the refusal.
#![tactic(auto)]

use read_header::part;
use rules::{Counts, RoundTripRefusal};
use std::io;
use stitch_box::{label, write_and_read, write_bound};

fn text(out: &impl Print, s: &[u8]) -> io::Result<()> {
    out.write_all(s)
}

// A name and a number.
fn number(out: &impl Print, name: &[u8], n: u64) -> io::Result<()> {
    text(out, name)?;
    out.print(n)
}

fn signed(out: &impl Print, z: i32) -> io::Result<()> {
    let n = z.unsigned_abs() as u64;
    if z < 0 {
        return number(out, b" -", n);
    }
    number(out, b" ", n)
}

// The first n cells.
fn cells(out: &impl Print, places: &[i32], n: usize) -> io::Result<()> {
    for z in places.iter().take(n) {
        signed(out, *z)?;
    }
    Ok(())
}

// What came back: of the file its first `len` bytes, of the places two for each point.
fn show(
    out: &impl Print,
    ext: &[u8],
    file: &[u8],
    places: &[i32],
    answer: Result<(usize, Counts), RoundTripRefusal>,
) -> io::Result<()> {
    text(out, ext)?;
    match answer {
        Err(RoundTripRefusal::NotWritten(why)) => number(
            out,
            b": not written, ",
            write_refusals::number(why) as u64,
        )?,
        Err(RoundTripRefusal::NotRead(len, why)) => {
            number(out, b": written ", len as u64)?;
            number(out, b", not read, ", write_refusals::number(why) as u64)?;
        }
        Ok((len, c)) => {
            number(out, b": written ", len as u64)?;
            number(out, b", points ", c.points as u64)?;
            number(out, b" runs ", c.runs as u64)?;
            number(out, b" blocks ", c.blocks as u64)?;
            number(out, b" cuts ", c.cuts as u64)?;
            text(out, b" [")?;
            text(out, label(ext, part(file, 0, len)))?;
            text(out, b"]")?;
            cells(out, places, 2 * (c.points as usize))?;
        }
    }
    text(out, b"\n")
}

// A list in two colours, whose first stitch goes from (10, 10) to (`far`, 10).
fn round_trip(out: &impl Print, ext: &[u8], far: i32, places: &mut [i32]) -> io::Result<()> {
    let xs = [10, far, far, far, far, far, -20, -20, 0, 0];
    let ys = [10, 10, -30, -30, -30, -5, -5, 15, 15, 15];
    let kinds = [1, 0, 0, 2, 3, 1, 0, 1, 0, 4];
    let threads = [200, 40, 40, 30, 90, 170];
    let mut file = [0u8; 4096];
    let mut runs = [0u32; 8];
    let mut blocks = [0u32; 12];
    let answer = write_and_read(
        ext,
        b"square",
        &xs,
        &ys,
        &kinds,
        &threads,
        &mut file,
        places,
        &mut runs,
        &mut blocks,
    );
    show(out, ext, &file, places, answer)
}

// An accepted list, the same with too little room for its places, and one with a step past the limits of all formats but VP3.
fn try_format(out: &impl Print, ext: &[u8]) -> io::Result<()> {
    text(out, ext)?;
    number(out, b": at most ", write_bound(ext, 10, 2) as u64)?;
    text(out, b" bytes\n")?;
    let mut places = [0i32; 32];
    round_trip(out, ext, 60, &mut places)?;
    let mut three = [0i32; 3];
    round_trip(out, ext, 60, &mut three)?;
    round_trip(out, ext, 2070, &mut places)
}

fn main(rt: HostRuntime) -> io::Result<()> {
    try_format(&rt, b"txt")?;
    try_format(&rt, b"PES")?;
    try_format(&rt, b"pec")?;
    try_format(&rt, b"dst")?;
    try_format(&rt, b"exp")?;
    try_format(&rt, b"jef")?;
    try_format(&rt, b"vp3")
}

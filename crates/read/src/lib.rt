// Reading: a file of any format, into three caller-provided buffers.
// A port of src/formats/read.rs of zigzag, changed.
#![tactic(auto)]

ghost use Rattle.std.specs.Prelude.{◌≡◌, false, ◌+◌, ◌≤◌, ◌<◌, length, drop, get_or, Some};
ghost use Rattle.rules.specs.Jef.{jef_records};
ghost use Rattle.rules.specs.Text.{word_at};
ghost use Rattle.rules.specs.Refusals.{extension_of};
ghost use Rattle.rules.specs.Promises.{ReadOf};
ghost use Rattle.read_builder.specs.Colour.{colour_in};
ghost use Rattle.read_refusals.specs.declared.Head.TheVariants.{Pec, Dst, Exp, Jef, Vp3};
ghost use Rattle.read.specs.Answered.{Answered, HeadAnswered, Opened, room_for};

use formats::extension_of;
use read_count::count;
use read_fill::fill;
use read_header::{dst_colors, jef_colors, part, pec_colors};
use read_passes::{Sizes, ample, sizes_of};
use read_records::Row;
use read_refusals::{Head, front};
use rules::{BLOCK_CELLS, Counts, DST_HEADER, Format, Refusal};

// Whether the answers fit: refusal 11 if not.
fn has_room(c: Sizes, places: usize, runs: usize, blocks: usize) -> bool
    ensures { result ≡ room_for c places runs blocks }
{
    if places < 2 * (c.points as usize) {
        return false;
    }
    if runs < (c.runs as usize) {
        return false;
    }
    BLOCK_CELLS * (c.blocks as usize) <= blocks
}

// The answers of the records in bytes. They are counted first, unless the buffers are ample.
fn read_records(
    f: Row,
    bytes: &[u8],
    colors: &[u32],
    places: &mut [i32],
    runs: &mut [u32],
    blocks: &mut [u32],
) -> Result<Counts, Refusal>
    requires { length bytes.now ≤ 2097152 }
    ensures { Answered (colour_in colors.now) f bytes.now places runs blocks result }
{
    if ample(bytes.len(), places.len(), runs.len(), blocks.len()) {
        return Ok(fill(f, bytes, colors, places, runs, blocks));
    }
    let c = count(f, bytes);
    if has_room(c, places.len(), runs.len(), blocks.len()) {
        return Ok(fill(f, bytes, colors, places, runs, blocks));
    }
    Err(Refusal::BufferTooShort)
}

// The bytes from a place on.
pub fn rest(file: &[u8], from: usize) -> &[u8]
    ensures result_value { result.now ≡ drop from file.now }
    ensures result_in_bounds { length result.now ≤ length file.now }
{
    part(file, from, file.len())
}

// A PEC part by its start and its count byte.
fn read_pec(
    file: &[u8],
    start: usize,
    count: u8,
    places: &mut [i32],
    runs: &mut [u32],
    blocks: &mut [u32],
) -> Result<Counts, Refusal>
    requires file_len_bound { (length file.now ≤ 2097152) × (start < length file.now) }
    requires count_value { count ≡ get_or file.now (start + 48) 0 }
    ensures { HeadAnswered (Pec start count) file.now places runs blocks result }
{
    let mut colors = [0u32; 256];
    let n = pec_colors(file, start, count, &mut colors);
    read_records(
        Row::Pec,
        rest(file, start + 528),
        &colors[..n],
        places,
        runs,
        blocks,
    )
}

fn read_dst(
    file: &[u8],
    places: &mut [i32],
    runs: &mut [u32],
    blocks: &mut [u32],
) -> Result<Counts, Refusal>
    requires { length file.now ≤ 2097152 }
    ensures { HeadAnswered Dst file.now places runs blocks result }
{
    let mut colors = [0u32; 256];
    let n = dst_colors(file, &mut colors);
    read_records(
        Row::Dst,
        rest(file, DST_HEADER),
        &colors[..n],
        places,
        runs,
        blocks,
    )
}

// EXP stores no colours.
fn read_exp(
    file: &[u8],
    places: &mut [i32],
    runs: &mut [u32],
    blocks: &mut [u32],
) -> Result<Counts, Refusal>
    requires { length file.now ≤ 2097152 }
    ensures { HeadAnswered Exp file.now places runs blocks result }
{
    let none = [0u32; 1];
    read_records(Row::Exp, file, &none[..0], places, runs, blocks)
}

// The stitches of a JEF file: from its offset on, none if that is below zero.
pub fn jef_stitches(file: &[u8], offset: i32) -> &[u8]
    requires { word_at 0 file.now ≡ offset }
    ensures { result.now ≡ jef_records file.now }
{
    if offset < 0 {
        return &file[..0];
    }
    rest(file, offset as usize)
}

fn read_jef(
    file: &[u8],
    offset: i32,
    places: &mut [i32],
    runs: &mut [u32],
    blocks: &mut [u32],
) -> Result<Counts, Refusal>
    requires file_len_bound { length file.now ≤ 2097152 }
    requires file_value { word_at 0 file.now ≡ offset }
    ensures { HeadAnswered (Jef offset) file.now places runs blocks result }
{
    let mut colors = [0u32; 256];
    let n = jef_colors(file, &mut colors);
    read_records(
        Row::Jef,
        jef_stitches(file, offset),
        &colors[..n],
        places,
        runs,
        blocks,
    )
}

// The counts are known from the opening.
fn read_vp3(
    file: &[u8],
    counts: Counts,
    places: &mut [i32],
    runs: &mut [u32],
    blocks: &mut [u32],
) -> Result<Counts, Refusal>
    requires { Opened (Vp3 counts) file.now }
    ensures { HeadAnswered (Vp3 counts) file.now places runs blocks result }
{
    if has_room(sizes_of(counts), places.len(), runs.len(), blocks.len()) {
        read_vp3::fill(file, places, runs, blocks);
        return Ok(counts);
    }
    Err(Refusal::BufferTooShort)
}

// A file that is not refused, by what its opening gave.
fn read_part(
    head: Head,
    file: &[u8],
    places: &mut [i32],
    runs: &mut [u32],
    blocks: &mut [u32],
) -> Result<Counts, Refusal>
    requires { Opened head file.now }
    ensures { HeadAnswered head file.now places runs blocks result }
{
    match head {
        Head::Pec { start, count } => read_pec(file, start, count, places, runs, blocks),
        Head::Dst => read_dst(file, places, runs, blocks),
        Head::Exp => read_exp(file, places, runs, blocks),
        Head::Jef { offset } => read_jef(file, offset, places, runs, blocks),
        Head::Vp3 { counts } => read_vp3(file, counts, places, runs, blocks),
    }
}

// A file of format f.
pub fn read_stitch_file(
    f: Format,
    file: &[u8],
    places: &mut [i32],
    runs: &mut [u32],
    blocks: &mut [u32],
) -> Result<Counts, Refusal>
    ensures { ReadOf (Some f) file.now places.old runs.old blocks.old places.new runs.new blocks.new result }
{
    let head = front(f, file)?;
    read_part(head, file, places, runs, blocks)
}

// Reads a file: points, runs and blocks into the buffers, and their counts; or why it is refused, and the buffers as they were.
pub fn read(
    ext: &[u8],
    file: &[u8],
    places: &mut [i32],
    runs: &mut [u32],
    blocks: &mut [u32],
) -> Result<Counts, Refusal>
    ensures { ReadOf (extension_of ext.now) file.now places.old runs.old blocks.old places.new runs.new blocks.new result }
{
    let Some(f) = extension_of(ext) else {
        return Err(Refusal::UnknownExtension);
    };
    read_stitch_file(f, file, places, runs, blocks)
}

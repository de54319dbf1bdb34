// VP3 files: the fields of a file in order of place, up to the first fault.
#![tactic(auto)]

ghost use Rattle.std.specs.Prelude.{◌≡◌, List, ℕ, ◌+◌, ◌*◌, ◌≤◌, ◌<◌, ◌+ℤ◌, nat_abs, length, take, drop, get_or};
ghost use Rattle.rules.specs.Vocabulary.{signed};
ghost use Rattle.rules.specs.Vp3.{from_big, toward_zero, text, shifts, in_color_part, in_design_part, in_file_part, vp3_blocks};
ghost use Rattle.rules.specs.declared.Refusal.TheVariants.{FileTooShort, OutOfRange};
ghost use Rattle.read_vp3_fields.specs.Fields.{within, Ahead, Reads, PartAt, Designs, start_by, StitchPart, Colors, BlockRead};

use rules::{Color, Refusal};

// A part of a file: from `at` to before `end`.
#[derive(Clone, Copy)]
struct Part {
    at: usize,
    end: usize,
}

// The colour blocks of the design part: where they begin and how many there are, and where the part ends.
#[derive(Clone, Copy)]
pub struct Design {
    pub at: usize,
    pub end: usize,
    pub count: usize,
}

// A colour block: its colour, where the next one starts, its stitch bytes, and where the next one's fields begin.
#[derive(Clone, Copy)]
pub struct Block {
    pub color: Color,
    pub x: i32,
    pub y: i32,
    pub at: usize,
    pub end: usize,
    pub next: usize,
}

// A number of two bytes, the high byte first.
pub fn be16(file: &[u8], at: usize) -> usize
    requires { at + 2 ≤ length file.now }
    ensures { (result ≡ from_big (take 2 (drop at file.now))) × (result < 65536) }
{
    256 * (file[at] as usize) + (file[at + 1] as usize)
}

// A number of four bytes, the high byte first.
pub fn be32(file: &[u8], at: usize) -> u32
    requires { at + 4 ≤ length file.now }
    ensures { result ≡ from_big (take 4 (drop at file.now)) }
{
    let high = 256 * (file[at] as u32) + (file[at + 1] as u32);
    let low = 256 * (file[at + 2] as u32) + (file[at + 3] as u32);
    65536 * high + low
}

// Behind n bytes, in a part that ends at `end`; or why there are fewer.
fn inside(at: usize, end: usize, n: usize, why: Refusal) -> Result<usize, Refusal>
    requires { at ≤ end }
    ensures { Ahead why at end n result }
{
    if end - at < n {
        return Err(why);
    }
    Ok(at + n)
}

// Behind a fixed field of n bytes.
fn skip(at: usize, end: usize, n: usize) -> Result<usize, Refusal>
    requires { at ≤ end }
    ensures { Ahead FileTooShort at end n result }
{
    inside(at, end, n, Refusal::FileTooShort)
}

// Behind a text behind its length.
fn text(file: &[u8], at: usize, end: usize) -> Result<usize, Refusal>
    requires { (at ≤ end) × (end ≤ length file.now) }
    ensures { Reads text file.now at end result }
{
    let start = skip(at, end, 2)?;
    inside(start, end, be16(file, at), Refusal::OutOfRange)
}

// A part behind its length.
fn part_at(file: &[u8], at: usize, end: usize) -> Result<Part, Refusal>
    requires { (at ≤ end) × (end ≤ length file.now) }
    ensures { PartAt file.now end at result }
{
    let start = skip(at, end, 4)?;
    let stop = inside(start, end, be32(file, at) as usize, Refusal::OutOfRange)?;
    Ok(Part {
        at: start,
        end: stop,
    })
}

// Centre, sizes, a text, four numbers, a text, the count.
fn design_part(file: &[u8], from: usize, end: usize) -> Result<Design, Refusal>
    requires { (from ≤ end) × (end ≤ length file.now) }
    ensures { Designs file.now (in_design_part (within file.now from end)) result }
{
    let first = skip(from, end, 35)?;
    let numbers = text(file, first, end)?;
    let second = skip(numbers, end, 24)?;
    let count = text(file, second, end)?;
    Ok(Design {
        at: skip(count, end, 2)?,
        end,
        count: be16(file, count),
    })
}

// A text, bounds and counts, the design part.
fn file_part(file: &[u8], from: usize, to: usize) -> Result<Design, Refusal>
    requires { (from ≤ to) × (to ≤ length file.now) }
    ensures { Designs file.now (in_file_part (within file.now from to)) result }
{
    let sizes = text(file, from, to)?;
    let design = skip(sizes, to, 28)?;
    let part = part_at(file, design, to)?;
    design_part(file, part.at, part.end)
}

// A file that begins as it must: a text, three bytes, the file part.
pub fn design_of(file: &[u8]) -> Result<Design, Refusal>
    requires { 6 ≤ length file.now }
    ensures { Designs file.now (vp3_blocks file.now) result }
{
    let n = file.len();
    let producer = text(file, 6, n)?;
    let rest = skip(producer, n, 3)?;
    let part = part_at(file, rest, n)?;
    file_part(file, part.at, part.end)
}

// A shift field by 100, rounded toward zero.
fn shift(n: u32) -> i64
    ensures { (result ≡ toward_zero (signed 31 n) 100) × (nat_abs result ≤ 21474836) }
{
    if n < 0x80000000 {
        return (n / 100) as i64;
    }
    let below = 4294967296 - (n as u64);
    0 - (below / 100) as i64
}

// Where a block starts, if one follows.
fn start_by(follows: bool, z: i32, by: i64) -> Option<i32>
    requires { nat_abs by ≤ 21474836 }
    ensures { result ≡ start_by follows z by }
{
    if !follows {
        return Some(z);
    }
    i32::try_from(z as i64 + by).ok()
}

// The stitch part: three bytes, its length, three bytes more, stitches. The next block starts at (x, y).
// It and the three below are to be inlined: else each `?` copies a block, and a file of many blocks takes two fifths longer.
#[inline(always)]
fn stitch_part(
    file: &[u8],
    from: usize,
    to: usize,
    color: Color,
    x: i32,
    y: i32,
) -> Result<Block, Refusal>
    requires { (from ≤ to) × (to ≤ length file.now) }
    ensures { StitchPart file.now from to color x y result }
{
    let at = skip(from, to, 3)?;
    let part = part_at(file, at, to)?;
    Ok(Block {
        color,
        x,
        y,
        at: skip(part.at, part.end, 3)?,
        end: part.end,
        next: to,
    })
}

// The shift field, which makes the next block's start, and the stitch part.
#[inline(always)]
fn shifts(
    file: &[u8],
    at: usize,
    end: usize,
    follows: bool,
    x: i32,
    y: i32,
    color: Color,
) -> Result<Block, Refusal>
    requires { (at ≤ end) × (end ≤ length file.now) }
    ensures { Colors file.now at end x y follows (λ n. shifts n x y color) result }
{
    let second = skip(at, end, 4)?;
    let nx = start_by(follows, x, shift(be32(file, at))).ok_or(Refusal::OutOfRange)?;
    let stitches = skip(second, end, 4)?;
    let ny = start_by(follows, y, -shift(be32(file, second))).ok_or(Refusal::OutOfRange)?;
    stitch_part(file, stitches, end, color, nx, ny)
}

// A colour part of the block from (x, y): stored start, colour, three texts, shift, stitches.
#[inline(always)]
fn color_part(
    file: &[u8],
    from: usize,
    end: usize,
    follows: bool,
    x: i32,
    y: i32,
) -> Result<Block, Refusal>
    requires { (from ≤ end) × (end ≤ length file.now) }
    ensures { Colors file.now from end x y follows (λ n. in_color_part n x y) result }
{
    let first = skip(from, end, 18)?;
    let color = Color(file[from + 10], file[from + 11], file[from + 12]);
    let second = text(file, first, end)?;
    let third = text(file, second, end)?;
    let shift = text(file, third, end)?;
    shifts(file, shift, end, follows, x, y, color)
}

// The colour block from (x, y), and whether by the stored count another follows it.
#[inline(always)]
pub fn block_at(
    file: &[u8],
    from: usize,
    to: usize,
    follows: bool,
    x: i32,
    y: i32,
) -> Result<Block, Refusal>
    requires { (from ≤ to) × (to ≤ length file.now) }
    ensures { BlockRead file.now from to x y follows result }
{
    let at = skip(from, to, 3)?;
    let part = part_at(file, at, to)?;
    color_part(file, part.at, part.end, follows, x, y)
}

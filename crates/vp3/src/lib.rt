// VP3: opening, file part, design part, colour blocks. Each length stands before what it counts, so the stitches of all blocks are
// counted first.
// A port of src/formats/more.rs of zigzag, changed.
#![tactic(auto)]

pub mod blocks;
pub mod heads;

ghost use Rattle.std.specs.Prelude.{◌≡◌, [], ◌≤◌, ◌<◌, ◌+ℤ◌, length, Some};
ghost use Rattle.rules.specs.Files.{write_answer};
ghost use Rattle.rules.specs.Lists.{commands, threads_of};
ghost use Rattle.rules.specs.Vp3.{vp3_file};
ghost use Rattle.rules.specs.Promises.{Wrote};
ghost use Rattle.rules.specs.declared.Format.TheVariants.{Vp3};
ghost use Rattle.laws.specs.Buffers.{Puts};
ghost use Rattle.emit.specs.Answered.{Answered};
ghost use Rattle.vp3.specs.Heads.{Near, Wide, head_text};
ghost use Rattle.vp3.specs.Blocks.{Known};

use crate::blocks::{put_blocks, scan_list};
use crate::heads::{Middle, put_design, put_opening, put_sizes};
use formats::{list_len, near_bounds};
use geom::Bounds;
use rules::{Format, Refusal, Written};
use write_refusals::check_list;

// Twice the centre of a design.
fn middle(b: Bounds) -> Middle
    requires { Near b }
    ensures { (result.x ≡ b.max.x +ℤ b.min.x) × ((result.y ≡ b.max.y +ℤ b.min.y) × Wide result) }
{
    Middle {
        x: b.max.x + b.min.x,
        y: b.max.y + b.min.y,
    }
}

// All that stands before the colour blocks: a file of n bytes, and so many commands and blocks.
fn put_head(b: Bounds, n: usize, commands: usize, blocks: usize, out: &mut [u8]) -> usize
    requires near { Near b × ((1 ≤ commands) × ((commands ≤ 65535) × (blocks ≤ 255))) }
    requires le_n { (226 ≤ n) × ((n < 4294967296) × (n ≤ length out.old)) }
    ensures { Puts out 0 result (head_text b n commands blocks) }
{
    let sizes = put_opening(n - 71, out);
    let design = put_sizes(b, commands - 1, blocks, n - 105, out, sizes);
    put_design(b, middle(b), blocks, out, design)
}

// The file, or refusal 11.
fn write_accepted(
    xs: &[i32],
    ys: &[i32],
    kinds: &[u8],
    threads: &[u8],
    out: &mut [u8],
) -> Result<Written, Refusal>
    requires { Known xs.now ys.now kinds.now × (1 ≤ length kinds.now) }
    ensures { Answered (write_answer 0) (vp3_file (commands xs.now ys.now kinds.now) (threads_of threads.now)) out.old out.new result }
{
    let mut ends = [0usize; 256];
    let mut lens = [0usize; 256];
    let s = scan_list(xs, ys, kinds, &mut ends, &mut lens);
    let n = 226 + 57 * s.blocks + s.len;
    if out.len() < n {
        return Err(Refusal::BufferTooShort);
    }
    let b = near_bounds(xs, ys, kinds);
    let at = put_head(b, n, list_len(xs, ys, kinds), s.blocks, out);
    let end = put_blocks(
        xs,
        ys,
        kinds,
        threads,
        middle(b),
        s.blocks,
        &ends,
        &lens,
        out,
        at,
    );
    Ok(Written {
        len: end,
        distance: 0,
    })
}

// Writes a list as a VP3 file to the front of the buffer: its length; or why it is refused, and the buffer as it was.
pub fn write_vp3(
    xs: &[i32],
    ys: &[i32],
    kinds: &[u8],
    threads: &[u8],
    out: &mut [u8],
) -> Result<Written, Refusal>
    ensures { Wrote (Some Vp3) [] xs.now ys.now kinds.now threads.now out.old out.new result }
{
    check_list(Format::Vp3, xs, ys, kinds, threads)?;
    write_accepted(xs, ys, kinds, threads, out)
}

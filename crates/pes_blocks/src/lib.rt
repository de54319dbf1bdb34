// PES: the sections with what stands before and behind them.
// A port of src/formats/pes.rs of zigzag, changed.
#![tactic(auto)]

ghost use Rattle.std.specs.Prelude.{◌≡◌, false, ◌+◌, ◌*◌, ◌≤◌, nat_abs, length};
ghost use Rattle.rules.specs.Lists.{commands, threads_of};
ghost use Rattle.rules.specs.Pes.{halves, matrix_field, pes_blocks};
ghost use Rattle.rules.specs.Refusals.{place_outside};
ghost use Rattle.laws.specs.Buffers.{Puts};
ghost use Rattle.geom.specs.Frames.{bounds_of};
ghost use Rattle.pec_threads.specs.Codes.{Coded};
ghost use Rattle.pes_sections.specs.States.{measures};
ghost use Rattle.pes_blocks.specs.Parts.{emb_text, matrix_text, sizes_text, seg_text, frame_text, end_text};

use emit::{put_short, put_text, put_times, put_word, spread};
use geom::Bounds;
use pes_sections::{Sizes, put_log, put_sections};

// Half of a whole number: exact.
fn half(z: i32) -> f32
    requires { nat_abs z ≤ 16777216 }
    ensures { result ≡ halves z }
{
    (z as f32) * 0.5
}

// A field of the matrix, from twice its value.
fn put_field(z: i32, out: &mut [u8], at: usize) -> usize
    requires z_bound { nat_abs z ≤ 16777216 }
    requires at_in_bounds { at + 4 ≤ length out.old }
    ensures { Puts out at result (matrix_field z) }
{
    put_word(out, at, f32::to_bits(half(z)))
}

// The matrix 1, 0, 0, 1, 1000 - w / 2, 1000 + h / 2.
fn put_matrix(w: u32, h: u32, out: &mut [u8], at: usize) -> usize
    requires w_bound { (w ≤ 32000) × (h ≤ 32000) }
    requires at_in_bounds { at + 24 ≤ length out.old }
    ensures { Puts out at result (matrix_text w h) }
{
    let second = put_field(2, out, at);
    let third = put_field(0, out, second);
    let fourth = put_field(0, out, third);
    let fifth = put_field(2, out, fourth);
    let sixth = put_field(2000 - (w as i32), out, fifth);
    put_field((2000 + h) as i32, out, sixth)
}

// "CEmbOne" and eight zeros.
#[tactic(auto, unfolding(rules::specs::Vocabulary::little, rules::specs::Vocabulary::joined, rules::specs::Pes::pes_string, rules::specs::Pes::shorts))]
fn put_emb(out: &mut [u8], at: usize) -> usize
    requires { at + 25 ≤ length out.old }
    ensures { Puts out at result emb_text }
{
    let text = put_short(out, at, 7);
    let zeros = put_text(out, text, b"CEmbOne");
    put_times(out, zeros, 0x00, 16)
}

// 1, 0, 0, the width, the height, eight bytes 0.
fn put_sizes(w: usize, h: usize, out: &mut [u8], at: usize) -> usize
    requires { at + 18 ≤ length out.old }
    ensures { Puts out at result (sizes_text w h) }
{
    let second = put_short(out, at, 1);
    let third = put_short(out, second, 0);
    let fourth = put_short(out, third, 0);
    let fifth = put_short(out, fourth, w);
    let zeros = put_short(out, fifth, h);
    put_times(out, zeros, 0x00, 8)
}

// How many sections, 0xFFFF, 0, "CSewSeg".
#[tactic(auto, unfolding(rules::specs::Vocabulary::little, rules::specs::Vocabulary::joined, rules::specs::Pes::pes_string, rules::specs::Pes::shorts))]
fn put_seg(n: usize, out: &mut [u8], at: usize) -> usize
    requires { at + 15 ≤ length out.old }
    ensures { Puts out at result (seg_text n) }
{
    let second = put_short(out, at, n);
    let third = put_short(out, second, 0xFFFF);
    let text = put_short(out, third, 0);
    let name = put_short(out, text, 7);
    put_text(out, name, b"CSewSeg")
}

// All that stands before the sections.
fn put_frame(w: u32, h: u32, n: usize, out: &mut [u8], at: usize) -> usize
    requires w_bound { (w ≤ 32000) × (h ≤ 32000) }
    requires at_in_bounds { at + 82 ≤ length out.old }
    ensures { Puts out at result (frame_text w h n) }
{
    let matrix = put_emb(out, at);
    let sizes = put_matrix(w, h, out, matrix);
    let seg = put_sizes(w as usize, h as usize, out, sizes);
    put_seg(n, out, seg)
}

// The colour log, how many entries it has before it, and two zeros behind it.
fn put_end(
    codes: &[u8; 256],
    threads: &[u8],
    xs: &[i32],
    ys: &[i32],
    kinds: &[u8],
    n: usize,
    out: &mut [u8],
    at: usize,
) -> usize
    requires coded { Coded (threads_of threads.now) codes.now }
    requires kinds_len_bound { length kinds.now ≤ 65535 }
    requires kinds_in_bounds { at + length (end_text n (threads_of threads.now) (commands xs.now ys.now kinds.now)) ≤ length out.old }
    ensures { Puts out at result (end_text n (threads_of threads.now) (commands xs.now ys.now kinds.now)) }
{
    let log = put_short(out, at, n);
    let zeros = put_log(codes, threads, xs, ys, kinds, out, log);
    put_times(out, zeros, 0x00, 4)
}

// How long the blocks are.
pub fn blocks_len(z: Sizes) -> usize
    requires { (z.bytes ≤ 1048560) × (z.logged ≤ 65535) }
    ensures { (result ≡ 88 + z.bytes + 4 * z.logged) × (result ≤ 2000000) }
{
    88 + z.bytes + 4 * z.logged
}

// Writes the blocks from `at` on; z holds their sizes.
pub fn write_pes_blocks(
    b: Bounds,
    xs: &[i32],
    ys: &[i32],
    kinds: &[u8],
    codes: &[u8; 256],
    threads: &[u8],
    z: Sizes,
    out: &mut [u8],
    at: usize,
) -> usize
    requires b_value { b ≡ bounds_of (commands xs.now ys.now kinds.now) }
    requires coded { Coded (threads_of threads.now) codes.now }
    requires kinds_len_bound { (length kinds.now ≤ 65535) × (place_outside (commands xs.now ys.now kinds.now) ≡ false) }
    requires measures { measures (threads_of threads.now) (commands xs.now ys.now kinds.now) z }
    requires threads_in_bounds { at + length (pes_blocks (commands xs.now ys.now kinds.now) (threads_of threads.now)) ≤ length out.old }
    ensures { Puts out at result (pes_blocks (commands xs.now ys.now kinds.now) (threads_of threads.now)) }
{
    let w = spread(b.min.x, b.max.x);
    let h = spread(b.min.y, b.max.y);
    let first = put_frame(w, h, z.sections, out, at);
    let end = put_sections(b.min.x, b.max.y, codes, threads, xs, ys, kinds, out, first);
    put_end(codes, threads, xs, ys, kinds, z.logged, out, end)
}

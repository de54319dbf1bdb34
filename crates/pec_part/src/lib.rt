// PEC: the header and the stitch block that a PEC file holds after its signature and a PES file at its end.
// A port of src/formats/pes.rs of zigzag, changed.
#![tactic(auto)]

ghost use Rattle.std.specs.Prelude.{◌≡◌, false, [], ◌+◌, ◌-◌, ◌≤◌, pos, length, replicate};
ghost use Rattle.rules.specs.Lists.{commands, threads_of};
ghost use Rattle.rules.specs.Pec.{pec_start, pec_stitches, unique_palette, pec_distance, pec_colors, pec_header, pec_part};
ghost use Rattle.rules.specs.Refusals.{step_too_long};
ghost use Rattle.rules.specs.declared.Format.TheVariants.{Pec};
ghost use Rattle.laws.specs.Buffers.{Puts};
ghost use Rattle.formats.specs.Matches.{Matches};
ghost use Rattle.geom.specs.Frames.{bounds_of};
ghost use Rattle.pec_part.specs.Parts.{label_text, sizes_text, part_long};

use emit::{put, put_name, put_short, put_text, put_three, put_times, put2, put3, put4, spread};
use formats::Matched;
use geom::Bounds;
use pec::pec_encode;
use pec_palette::unique_palette;
use thumbnails::put_icons;
use write_refusals::color_changes;

// `LA:`, the name, a carriage return, 12 blanks, FF 00, 6 bytes by 38 rows.
fn put_label(name: &[u8], out: &mut [u8], at: usize) -> usize
    requires { at + 36 ≤ length out.old }
    ensures { Puts out at result (label_text name.now) }
{
    let text = put3(out, at, 0x4C, 0x41, 0x3A);
    let end = put_name(name, 0x00, 0x80, 8, out, text);
    let blanks = put(out, end, 0x0D);
    let picture = put_times(out, blanks, 0x20, 12);
    put4(out, picture, 0xFF, 0x00, 0x06, 0x26)
}

// Where there are no threads: 12 bytes, and count byte FF.
fn put_no_colors(out: &mut [u8], at: usize) -> usize
    requires { at + 13 ≤ length out.old }
    ensures { Puts out at result (pec_colors []) }
{
    let second = put4(out, at, 0x20, 0x20, 0x20, 0x20);
    let third = put4(out, second, 0x64, 0x20, 0x00, 0x20);
    let count = put4(out, third, 0x00, 0x20, 0x20, 0x20);
    put(out, count, 0xFF)
}

// 12 blanks, the count less one and the entries; the distance is that of the entries, as in all that follows.
fn put_colors(threads: &[u8], out: &mut [u8], at: usize) -> Matched
    requires threads_len_bound { length threads.now ≤ 765 }
    requires threads_in_bounds { at + (13 + length (threads_of threads.now)) ≤ length out.old }
    ensures { Matches out at result (pec_colors (unique_palette (threads_of threads.now))) (pec_distance (threads_of threads.now)) }
{
    let n = threads.len() / 3;
    if n == 0 {
        return Matched {
            end: put_no_colors(out, at),
            distance: 0,
        };
    }
    let count = put_times(out, at, 0x20, 12);
    let entries = put(out, count, (n - 1) as u8);
    unique_palette(threads, out, entries)
}

// Blanks where n threads leave room.
fn put_fill(n: usize, out: &mut [u8], at: usize) -> usize
    requires n_bound { n ≤ 463 }
    requires n_in_bounds { at + (463 - n) ≤ length out.old }
    ensures { Puts out at result (replicate (463 - n) 0x20) }
{
    let blanks = [0x20u8; 463];
    put_text(out, at, &blanks[n..])
}

// The header: 512 bytes.
fn put_header(name: &[u8], threads: &[u8], out: &mut [u8], at: usize) -> Matched
    requires threads_len_bound { length threads.now ≤ 765 }
    requires at_in_bounds { at + 512 ≤ length out.old }
    ensures { Matches out at result (pec_header name.now (threads_of threads.now)) (pec_distance (threads_of threads.now)) }
{
    let colors = put_label(name, out, at);
    let fill = put_colors(threads, out, colors);
    Matched {
        end: put_fill(threads.len() / 3, out, fill.end),
        distance: fill.distance,
    }
}

// What stands before n bytes of stitches.
fn put_sizes(n: usize, w: u32, h: u32, out: &mut [u8], at: usize) -> usize
    requires n_bound { n ≤ 1000000 }
    requires at_in_bounds { at + 16 ≤ length out.old }
    ensures { Puts out at result (sizes_text n w h) }
{
    let long = put2(out, at, 0x00, 0x00);
    let mark = put_three(out, long, (16 + n) as u32);
    let wide = put3(out, mark, 0x31, 0xFF, 0xF0);
    let high = put_short(out, wide, w as usize);
    let third = put_short(out, high, h as usize);
    let fourth = put_short(out, third, 0x1E0);
    put_short(out, fourth, 0x1B0)
}

// Writes the part from `at` on; n is how many bytes the stitches take.
pub fn write_pec(
    b: Bounds,
    name: &[u8],
    xs: &[i32],
    ys: &[i32],
    kinds: &[u8],
    threads: &[u8],
    n: usize,
    out: &mut [u8],
    at: usize,
) -> Matched
    requires b_value { b ≡ bounds_of (commands xs.now ys.now kinds.now) }
    requires kinds_len_bound { (length kinds.now ≤ 65535) × ((length threads.now ≤ 765) × (step_too_long Pec (commands xs.now ys.now kinds.now) ≡ false)) }
    requires n_value { n ≡ length (pec_stitches pec_start (pos 0) (pos 0) (commands xs.now ys.now kinds.now)) }
    requires threads_in_bounds { at + length (pec_part name.now (commands xs.now ys.now kinds.now) (threads_of threads.now)) ≤ length out.old }
    ensures { Matches out at result (pec_part name.now (commands xs.now ys.now kinds.now) (threads_of threads.now))
        (pec_distance (threads_of threads.now)) }
{
    let w = spread(b.min.x, b.max.x);
    let h = spread(b.min.y, b.max.y);
    let block = put_header(name, threads, out, at);
    let stitches = put_sizes(n, w, h, out, block.end);
    let pictures = pec_encode(xs, ys, kinds, out, stitches);
    Matched {
        end: put_icons(b, xs, ys, kinds, out, pictures),
        distance: block.distance,
    }
}

// How long the part is, its stitches taking n bytes.
pub fn part_len(xs: &[i32], ys: &[i32], kinds: &[u8], threads: &[u8], n: usize) -> usize
    requires kinds_len_bound { (length kinds.now ≤ 65535) × (length threads.now ≤ 765) }
    requires n_value { n ≡ length (pec_stitches pec_start (pos 0) (pos 0) (commands xs.now ys.now kinds.now)) }
    ensures { part_long (threads_of threads.now) (commands xs.now ys.now kinds.now) result }
{
    528 + n + 228 * (2 + color_changes(xs, ys, kinds))
}

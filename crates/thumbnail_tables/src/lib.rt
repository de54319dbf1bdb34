// Thumbnails of long lists: the pixels of all places between the bounds are worked out once, and each stitch looks its own up.
// A port of src/formats/pes.rs of zigzag, changed.
#![tactic(auto)]

ghost use Rattle.std.specs.Prelude.{◌≡◌, ℕ, ◌+◌, ◌-◌, ◌<◌, ◌≤◌, ◌++◌, length, drop, replicate, pos, ◌+ℤ◌, ◌-ℤ◌, ◌≤ℤ◌, ◌<ℤ◌, from_bits, unsigned_abs};
ghost use Rattle.std.specs.Float.{binary64};
ghost use Rattle.std.specs.Float.Ieee.{lt};
ghost use Rattle.std.proofs.lemmas.List.Edits.{sets};
ghost use Rattle.rules.specs.Charts.{blank_icon};
ghost use Rattle.rules.specs.Lists.{commands};
ghost use Rattle.rules.specs.Thumbnails.{pixel_at};
ghost use Rattle.laws.specs.Buffers.{Puts};
ghost use Rattle.thumbnail_tables.specs.Blocks.{block_icons, icons_by};
ghost use Rattle.thumbnail_tables.specs.Cells.{column_cell, row_cell, cell_of, Filled, Inside, AllInside, bit_set, Framed};
ghost use Rattle.thumbnail_tables.specs.Looked.{blocks_looked, icons_looked};

use emit::{put_text, put_times};
use formats::list_len;
use pec_data::pec_icon_blank;
use rules::Scale;
use thumbnail_scale::{floor, scaled};

// The cell of a column: its byte in a row, and 256 times its bit; 0 outside the picture.
fn column_cell(x: usize) -> u16
    ensures { result ≡ column_cell x }
{
    if 48 <= x {
        return 0;
    }
    (x / 8 + 256 * (1 << (x % 8))) as u16
}

// The cell of a row: where it begins; 0 outside the picture.
fn row_cell(y: usize) -> u16
    ensures { result ≡ row_cell y }
{
    if 38 <= y {
        return 0;
    }
    (y * 6) as u16
}

// The cell of a pixel number, a column's or a row's.
fn cell_of(down: bool, p: usize) -> u16
    ensures { result ≡ cell_of down p }
{
    if down {
        return row_cell(p);
    }
    column_cell(p)
}

// The place so many steps from another.
fn place(from: i32, i: usize) -> i32
    requires { (unsigned_abs from ≤ 98304) × (i ≤ 32768) }
    ensures { result ≡ from +ℤ pos i }
{
    from + (i as i32)
}

fn is_above_zero(x: f64) -> bool
    ensures { result ≡ lt (from_bits binary64 0) x }
{
    0.0 < x
}

// How many places there probably are before the next pixel number; any answer will do.
fn reach(scale: f64, here: f64, p: usize) -> usize
    requires { p < 48 }
    ensures { result ≤ 65536 }
{
    let next = (p + 1) as u32;
    let far = ((next as f64) - here) / scale;
    if far < 0.0 {
        return 0;
    }
    if far < 65536.0 {
        return std::num::truncating_f64_to_u64(far) as usize;
    }
    65536
}

// How many places from z on, at most so many, are known to have the pixel number of z: as many as `reach` says if the last of them has it.
fn stretch(scale: f64, t: f64, z: i32, most: usize, p: usize) -> usize
    requires z_bound { (unsigned_abs z ≤ 98304) × ((0 < most) × (most ≤ 32768)) }
    requires p_value { p ≡ pixel_at z scale t }
    ensures { (0 < result) × ((result ≤ most) × ((k : ℕ) → k < result → pixel_at (z +ℤ pos k) scale t ≡ p)) }
{
    if 48 <= p {
        return 1;
    }
    let far = reach(scale, scaled(z, scale, t), p).min(most);
    if far <= 1 {
        return 1;
    }
    if !is_above_zero(scale) {
        return 1;
    }
    if floor(scaled(place(z, far - 1), scale, t)) == p {
        return far;
    }
    1
}

// The same number from i to before j.
fn fill_same(table: &mut [u16], i: usize, j: usize, v: u16)
    requires { (i ≤ j) × (j ≤ length table.old) }
    ensures { table.new ≡ sets table.old i (replicate (j - i) v) }
{
    for k in i..j {
        table[k] = v;
    }
}

// The cells of n places from one on.
fn fill(down: bool, scale: f64, t: f64, from: i32, n: usize, table: &mut [u16])
    requires { (unsigned_abs from ≤ 65536) × ((n ≤ 32768) × (n ≤ length table.old)) }
    ensures { (length table.new ≡ length table.old) × Filled down scale t from n table.new }
{
    let mut i = 0;
    // Kept as while: each turn goes on by a whole stretch.
    while i < n {
        let z = place(from, i);
        let p = floor(scaled(z, scale, t));
        let end = i + stretch(scale, t, z, n - i, p);
        fill_same(table, i, end, cell_of(down, p));
        i = end;
    }
}

// How far a place is from another that is not beyond it.
fn index_of(from: i32, z: i32) -> usize
    requires { (unsigned_abs from ≤ 65536) × ((from ≤ℤ z) × (z <ℤ (from +ℤ pos 32768))) }
    ensures { result ≡ unsigned_abs (z -ℤ from) }
{
    (z - from) as u32 as usize
}

// Sets the bit of a column in a row, given by their cells.
fn set_bit(icon: &mut [u8], column: u16, row: u16)
    requires { (length icon.old ≡ 228) × Inside column row }
    ensures { icon.new ≡ bit_set icon.old column row }
{
    let i = (row + column % 256) as usize;
    icon[i] |= (column / 256) as u8;
}

// A picture with nothing in row 0.
fn put_rows(icon: &[u8], out: &mut [u8], at: usize) -> usize
    requires icon_len { length icon.now ≡ 228 }
    requires at_in_bounds { at + 228 ≤ length out.old }
    ensures { Puts out at result (replicate 6 0 ++ drop 6 icon.now) }
{
    let rows = put_times(out, at, 0x00, 6);
    put_text(out, rows, &icon[6..])
}

// The picture of the whole and those of the colour blocks, by a table of columns and one of rows for each of the two scales.
fn draw_looked(
    columns: &[u16],
    rows: &[u16],
    bcolumns: &[u16],
    brows: &[u16],
    left: i32,
    w: usize,
    top: i32,
    h: usize,
    xs: &[i32],
    ys: &[i32],
    kinds: &[u8],
    out: &mut [u8],
    at: usize,
) -> usize
    requires left_bound { ((unsigned_abs left ≤ 65536) × (w ≤ 32768)) × ((unsigned_abs top ≤ 65536) × (h ≤ 32768)) }
    requires all_inside { AllInside w h columns.now rows.now × AllInside w h bcolumns.now brows.now }
    requires framed { Framed left w top h (commands xs.now ys.now kinds.now) }
    requires kinds_in_bounds { at + (228 + length (blocks_looked bcolumns.now brows.now left top blank_icon (commands xs.now ys.now kinds.now))) ≤ length out.old }
    ensures { Puts out at result (icons_looked columns.now rows.now bcolumns.now brows.now left top (commands xs.now ys.now kinds.now)) }
{
    let n = list_len(xs, ys, kinds);
    let mut icon = pec_icon_blank();
    let mut block = pec_icon_blank();
    let mut to = at + 228;
    for i in 0..n {
        let kind = kinds[i];
        if kind == 0 {
            let x = index_of(left, xs[i]);
            let y = index_of(top, ys[i]);
            set_bit(&mut icon, columns[x], rows[y]);
            set_bit(&mut block, bcolumns[x], brows[y]);
            continue;
        }
        if kind == 3 {
            to = put_rows(&block, out, to);
            block = pec_icon_blank();
        }
    }
    let end = put_rows(&block, out, to);
    put_rows(&icon, out, at);
    end
}

// The thumbnail of the whole, then one for each colour block; all places lie in w columns from left and h rows from top.
pub fn put_by_tables(
    whole: Scale,
    part: Scale,
    left: i32,
    w: usize,
    top: i32,
    h: usize,
    xs: &[i32],
    ys: &[i32],
    kinds: &[u8],
    out: &mut [u8],
    at: usize,
) -> usize
    requires left_bound { ((unsigned_abs left ≤ 65536) × (w ≤ 32768)) × ((unsigned_abs top ≤ 65536) × (h ≤ 32768)) }
    requires framed { Framed left w top h (commands xs.now ys.now kinds.now) }
    requires kinds_in_bounds { at + (228 + length (block_icons part (commands xs.now ys.now kinds.now))) ≤ length out.old }
    ensures { Puts out at result (icons_by whole part (commands xs.now ys.now kinds.now)) }
{
    let mut columns = [0u16; 32768];
    let mut rows = [0u16; 32768];
    let mut bcolumns = [0u16; 32768];
    let mut brows = [0u16; 32768];
    fill(false, whole.scale, whole.tx, left, w, &mut columns);
    fill(true, whole.scale, whole.ty, top, h, &mut rows);
    fill(false, part.scale, part.tx, left, w, &mut bcolumns);
    fill(true, part.scale, part.ty, top, h, &mut brows);
    draw_looked(
        &columns, &rows, &bcolumns, &brows, left, w, top, h, xs, ys, kinds, out, at,
    )
}

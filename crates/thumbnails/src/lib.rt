// PEC's thumbnails: 38 rows of 6 bytes, the lowest bit leftmost.
// A port of src/formats/pes.rs of zigzag, changed.
#![tactic(auto)]

ghost use Rattle.std.specs.Prelude.{◌≡◌, true, ◌+◌, ◌≤◌, nat_abs, ◌-ℤ◌, length, drop};
ghost use Rattle.std.proofs.Math.Seq.{slice};
ghost use Rattle.rules.specs.Charts.{blank_icon};
ghost use Rattle.rules.specs.Lists.{is_change, commands};
ghost use Rattle.rules.specs.Thumbnails.{pixel, painted, marked, drawn, icons};
ghost use Rattle.laws.specs.Buffers.{Puts};
ghost use Rattle.geom.specs.Frames.{bounds_of};
ghost use Rattle.thumbnail_tables.specs.Blocks.{block_icons, icons_by};
ghost use Rattle.thumbnails.specs.Blocks.{change_from};
ghost use Rattle.thumbnails.specs.Cells.{no_cell, is_in, Covers, Seen};

use emit::{put_text, spread};
use formats::{list_len, op_of};
use geom::Bounds;
use pec_data::pec_icon_blank;
use rules::{Op, Scale};
use thumbnail_scale::{floor, scale_of, scaled};
use thumbnail_tables::put_by_tables;

// Sets a pixel; none outside the thumbnail, and none in row 0.
fn set_pixel(icon: &mut [u8], x: usize, y: usize)
    requires { length icon.old ≡ 228 }
    ensures { icon.new ≡ pixel icon.old x y }
{
    if 48 <= x {
        return;
    }
    if y == 0 {
        return;
    }
    if 38 <= y {
        return;
    }
    let i = y * 6 + x / 8;
    icon[i] |= 1 << (x % 8);
}

// A pixel by the places that lie in it: from left to before right and from top to before bottom.
#[derive(Clone, Copy)]
pub struct Cell {
    pub left: f64,
    pub right: f64,
    pub top: f64,
    pub bottom: f64,
}

// No place lies in it.
fn no_cell() -> Cell
    ensures { result ≡ no_cell }
{
    Cell {
        left: 1.0,
        right: 0.0,
        top: 1.0,
        bottom: 0.0,
    }
}

// Whether a place lies in a cell.
fn is_in(c: Cell, x: f64, y: f64) -> bool
    ensures { result ≡ is_in c x y }
{
    if x < c.left {
        return false;
    }
    if y < c.top {
        return false;
    }
    if x < c.right {
        return y < c.bottom;
    }
    false
}

// The cell of a pixel, and none for a pixel outside the picture.
fn cell_of(x: usize, y: usize) -> Cell
    ensures { Covers result x y }
{
    if 48 <= x {
        return no_cell();
    }
    if 48 <= y {
        return no_cell();
    }
    let column = x as u32;
    let row = y as u32;
    Cell {
        left: column as f64,
        right: (column + 1) as f64,
        top: row as f64,
        bottom: (row + 1) as f64,
    }
}

// Paints the place of a stitch, unless it lies in the cell painted last. Answers the cell painted last.
fn paint(s: Scale, icon: &mut [u8], last: Cell, x: i32, y: i32) -> Cell
    requires { (length icon.old ≡ 228) × Seen last icon.old }
    ensures { (icon.new ≡ painted s icon.old x y) × Seen result icon.new }
{
    let across = scaled(x, s.scale, s.tx);
    let down = scaled(y, s.scale, s.ty);
    if is_in(last, across, down) {
        return last;
    }
    let column = floor(across);
    let row = floor(down);
    set_pixel(icon, column, row);
    cell_of(column, row)
}

// A stitch paints its place, any other command nothing.
fn mark(s: Scale, icon: &mut [u8], last: Cell, op: Op, x: i32, y: i32) -> Cell
    requires { (length icon.old ≡ 228) × Seen last icon.old }
    ensures { (icon.new ≡ marked s icon.old op x y) × Seen result icon.new }
{
    let Op::Stitch = op else {
        return last;
    };
    paint(s, icon, last, x, y)
}

// The thumbnail of the commands from `from` to before `to`.
fn draw_scaled(s: Scale, xs: &[i32], ys: &[i32], kinds: &[u8], from: usize, to: usize) -> [u8; 228]
    requires { (from ≤ to) × (to ≤ length (commands xs.now ys.now kinds.now)) }
    ensures { result ≡ drawn s blank_icon (slice from to (commands xs.now ys.now kinds.now)) }
{
    let mut icon = pec_icon_blank();
    let mut last = no_cell();
    for i in from..to {
        let next = mark(s, &mut icon, last, op_of(kinds[i]), xs[i], ys[i]);
        last = next;
    }
    icon
}

fn is_change(op: Op) -> bool
    ensures { result ≡ is_change op }
{
    let Op::ColorChange = op else {
        return false;
    };
    true
}

// Where the colour block that begins at `from` ends: at the next colour change, or at the end of the list.
fn block_end(xs: &[i32], ys: &[i32], kinds: &[u8], from: usize) -> usize
    requires { from ≤ length (commands xs.now ys.now kinds.now) }
    ensures { result ≡ from + change_from (drop from (commands xs.now ys.now kinds.now)) }
{
    let n = list_len(xs, ys, kinds);
    for i in from..n {
        if is_change(op_of(kinds[i])) {
            return i;
        }
    }
    n
}

fn put_icon(icon: [u8; 228], out: &mut [u8], at: usize) -> usize
    requires { at + 228 ≤ length out.old }
    ensures { Puts out at result icon }
{
    put_text(out, at, &icon)
}

// A thumbnail for each colour block.
fn put_blocks(s: Scale, xs: &[i32], ys: &[i32], kinds: &[u8], out: &mut [u8], at: usize) -> usize
    requires { at + length (block_icons s (commands xs.now ys.now kinds.now)) ≤ length out.old }
    ensures { Puts out at result (block_icons s (commands xs.now ys.now kinds.now)) }
{
    let n = list_len(xs, ys, kinds);
    let mut from = 0;
    let mut to = at;
    // Kept as while: each turn goes on by a whole block.
    while from <= n {
        let end = block_end(xs, ys, kinds, from);
        to = put_icon(draw_scaled(s, xs, ys, kinds, from, end), out, to);
        from = end + 1;
    }
    to
}

// How many places there are from one to another.
fn places(a: i32, b: i32) -> usize
    ensures { result ≡ nat_abs (b -ℤ a) + 1 }
{
    spread(a, b) as usize + 1
}

// Whether a number is near enough to 0 for tables.
fn is_near(z: i32) -> bool
    ensures { result ≡ true → nat_abs z ≤ 65536 }
{
    if z < -65536 {
        return false;
    }
    z <= 65536
}

// Whether tables of w columns from left and h rows from top are worth their time, and can be had.
fn has_tables(left: i32, w: usize, top: i32, h: usize, n: usize) -> bool
    ensures { result ≡ true → ((nat_abs left ≤ 65536) × (w ≤ 32768)) × ((nat_abs top ≤ 65536) × (h ≤ 32768)) }
{
    if n < 2048 {
        return false;
    }
    if 32768 < w {
        return false;
    }
    if 32768 < h {
        return false;
    }
    if n < w + h {
        return false;
    }
    is_near(left) & is_near(top)
}

// The thumbnail of the whole, then one for each colour block, stitch by stitch.
fn put_plainly(
    whole: Scale,
    part: Scale,
    xs: &[i32],
    ys: &[i32],
    kinds: &[u8],
    out: &mut [u8],
    at: usize,
) -> usize
    requires { at + (228 + length (block_icons part (commands xs.now ys.now kinds.now))) ≤ length out.old }
    ensures { Puts out at result (icons_by whole part (commands xs.now ys.now kinds.now)) }
{
    let n = list_len(xs, ys, kinds);
    let blocks = put_icon(draw_scaled(whole, xs, ys, kinds, 0, n), out, at);
    put_blocks(part, xs, ys, kinds, out, blocks)
}

// The thumbnail of the whole, then one for each colour block, all by the bounds of the whole.
pub fn put_icons(
    b: Bounds,
    xs: &[i32],
    ys: &[i32],
    kinds: &[u8],
    out: &mut [u8],
    at: usize,
) -> usize
    requires b_value { b ≡ bounds_of (commands xs.now ys.now kinds.now) }
    requires kinds_in_bounds { at + length (icons (commands xs.now ys.now kinds.now)) ≤ length out.old }
    ensures { Puts out at result (icons (commands xs.now ys.now kinds.now)) }
{
    let n = list_len(xs, ys, kinds);
    let whole = scale_of(b.min.x, b.min.y, b.max.x, b.max.y, 4.0);
    let part = scale_of(b.min.x, b.min.y, b.max.x, b.max.y, 5.0);
    let w = places(b.min.x, b.max.x);
    let h = places(b.min.y, b.max.y);
    if has_tables(b.min.x, w, b.min.y, h, n) {
        return put_by_tables(whole, part, b.min.x, w, b.min.y, h, xs, ys, kinds, out, at);
    }
    put_plainly(whole, part, xs, ys, kinds, out, at)
}

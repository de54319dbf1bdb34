// What every format uses: extensions, operations, bounds of a list, colours and the choice of a thread.
// A port of src/formats/mod.rs of zigzag, changed.
#![tactic(auto)]

ghost use Rattle.std.specs.Prelude.{◌≡◌, true, false, ◌+◌, ◌≤◌, ◌<◌, eqb, length};
ghost use Rattle.rules.specs.Lists.{op_of, commands};
ghost use Rattle.rules.specs.Refusals.{extension_of, place_outside};
ghost use Rattle.rules.specs.Choices.{half_to_even, gap, weighed, distance, away, nearest_answer, with_distance, pec_palette};
ghost use Rattle.laws.specs.Choosing.{choice};
ghost use Rattle.geom.specs.Frames.{bounds_of};
ghost use Rattle.formats.specs.Closer.{leads_by};

use geom::{Bounds, P};
pub use rules::{Cmd, Op};
use rules::{Color, Format};

// The operation that a kind stands for; a kind over 4 is refused elsewhere.
pub fn op_of(kind: u8) -> Op
    ensures { result ≡ op_of kind }
{
    match kind {
        0 => Op::Stitch,
        1 => Op::Jump,
        2 => Op::Trim,
        3 => Op::ColorChange,
        _ => Op::End,
    }
}

// Whether two kinds are both 0, a stitch, by one test.
pub fn are_stitches(a: u8, b: u8) -> bool
    ensures { result ≡ eqb (a + b) 0 }
{
    (a as u16) + (b as u16) == 0
}

// The format that an extension names.
pub fn extension_of(ext: &[u8]) -> Option<Format>
    ensures { result ≡ extension_of ext.now }
{
    if ext.eq_ignore_ascii_case(b"pes") {
        return Some(Format::Pes);
    }
    if ext.eq_ignore_ascii_case(b"pec") {
        return Some(Format::Pec);
    }
    if ext.eq_ignore_ascii_case(b"dst") {
        return Some(Format::Dst);
    }
    if ext.eq_ignore_ascii_case(b"exp") {
        return Some(Format::Exp);
    }
    if ext.eq_ignore_ascii_case(b"jef") {
        return Some(Format::Jef);
    }
    if ext.eq_ignore_ascii_case(b"vp3") {
        return Some(Format::Vp3);
    }
    None
}

// How many commands three slices hold.
pub fn list_len(xs: &[i32], ys: &[i32], kinds: &[u8]) -> usize
    ensures { result ≡ length (commands xs.now ys.now kinds.now) }
{
    xs.len().min(ys.len()).min(kinds.len())
}

// The bounds of every command's place; (0, 0) alone where there is none.
pub fn stream_bounds(xs: &[i32], ys: &[i32], kinds: &[u8]) -> Bounds
    ensures { result ≡ bounds_of (commands xs.now ys.now kinds.now) }
{
    let n = list_len(xs, ys, kinds);
    if n == 0 {
        return Bounds::empty().add(P::new(0, 0));
    }
    let mut b = Bounds::empty();
    for i in 0..n {
        b = b.add(P::new(xs[i], ys[i]));
    }
    b
}

// The same where every place lies from -16,000 to 16,000, in numbers of 16 bits.
// Kept beside `stream_bounds`: 16 bits are what the loop was made fast by (docs/DECISIONS.md, 56).
pub fn near_bounds(xs: &[i32], ys: &[i32], kinds: &[u8]) -> Bounds
    requires { place_outside (commands xs.now ys.now kinds.now) ≡ false }
    ensures { result ≡ bounds_of (commands xs.now ys.now kinds.now) }
{
    let n = list_len(xs, ys, kinds);
    if n == 0 {
        return Bounds::empty().add(P::new(0, 0));
    }
    let mut x0: i16 = 32767;
    let mut y0: i16 = 32767;
    let mut x1: i16 = -32768;
    let mut y1: i16 = -32768;
    for i in 0..n {
        let x = xs[i] as i16;
        let y = ys[i] as i16;
        x0 = x0.min(x);
        y0 = y0.min(y);
        x1 = x1.max(x);
        y1 = y1.max(y);
    }
    Bounds {
        min: P::new(x0 as i32, y0 as i32),
        max: P::new(x1 as i32, y1 as i32),
    }
}

fn half_to_even(n: u32) -> u32
    requires { n ≤ 510 }
    ensures { (result ≡ half_to_even n) × (result ≤ 255) }
{
    n / 2 + n % 2 * (n / 2 % 2)
}

fn gap(a: u8, b: u8) -> u32
    ensures { (result ≡ gap a b) × (result ≤ 255) }
{
    if a < b {
        return (b - a) as u32;
    }
    (a - b) as u32
}

fn weighed(m: u32, r: u32, g: u32, b: u32) -> u32
    requires { (m ≤ 255) × ((r ≤ 255) × ((g ≤ 255) × (b ≤ 255))) }
    ensures { result ≡ weighed m r g b }
{
    (512 + m) * (r * r) / 256 + 4 * (g * g) + (767 - m) * (b * b) / 256
}

// The distance of two colours by the red mean, as other programs reckon it.
pub fn color_distance(a: Color, b: Color) -> u32
    ensures { result ≡ distance a b }
{
    let m = half_to_even(a.0 as u32 + b.0 as u32);
    weighed(m, gap(a.0, b.0), gap(a.1, b.1), gap(a.2, b.2))
}

// How far a colour is from the thread of an entry; 0 where it has none.
pub fn away(color: Color, s: Option<Color>) -> u32
    ensures { result ≡ away color s }
{
    let Some(t) = s else {
        return 0;
    };
    color_distance(color, t)
}

// Where what was put ends, and the largest distance between a thread and the chart's own colour of the entry put for it.
#[derive(Clone, Copy)]
pub struct Matched {
    pub end: usize,
    pub distance: u32,
}

// A number past all distances, for no thread.
const FAR: u64 = 4294967296;

// Whether a distance takes the lead from the least so far: of equal distances the later one or the first.
fn takes(later: bool, least: u64, d: u64) -> bool
    ensures { result ≡ leads_by later least d }
{
    if later {
        return d <= least;
    }
    d < least
}

// The entry at the least distance, and the distance; of equal distances the later or the first.
// Kept as numbers: with an `Option` a turn is a branch that is often mispredicted, and JEF's choice takes half as long again.
pub fn nearest(later: bool, color: Color, palette: &[Option<Color>]) -> Option<(usize, u32)>
    ensures { result ≡ with_distance color palette.now (choice later color palette.now) }
{
    let mut at = 0;
    let mut least = FAR;
    for i in 0..palette.len() {
        let Some(t) = palette[i] else {
            continue;
        };
        let d = color_distance(color, t) as u64;
        if takes(later, least, d) {
            at = i;
            least = d;
        }
    }
    if least == FAR {
        return None;
    }
    Some((at, least as u32))
}

// PEC's choice: of equal distances the later.
#[tactic(auto, unfolding(rules::specs::Choices::nearest_answer))]
pub fn nearest_index(color: Color, palette: [Option<Color>; 65]) -> Option<(usize, u32)>
    ensures { result ≡ nearest_answer color palette }
{
    nearest(true, color, &palette)
}

// The entries of PEC's chart that may be chosen.
pub fn pec_palette() -> [Option<Color>; 65]
    ensures { result ≡ pec_palette }
{
    let mut out = [None; 65];
    for i in 1..65 {
        out[i] = Some(pec_data::pec_thread(i));
    }
    out
}

// Whether the port answers a case as the Rust did.
ghost use Rattle.std.specs.Prelude.{◌<◌};

use geom::Bounds;
use replay::bytes::{byte, signed_word, word};
use rules::Color;

pub fn agrees(case: &[u8], what: u8) -> bool {
    match what {
        0 => distance(case),
        1 => nearest(case),
        2 => jef(case),
        3 => part(case),
        _ => bounds(case),
    }
}

fn color(case: &[u8], at: usize) -> Color {
    let three = read_header::part(case, at, 3);
    Color(byte(three, 0), byte(three, 1), byte(three, 2))
}

// Two colours and their distance.
fn distance(case: &[u8]) -> bool {
    let d = formats::color_distance(color(case, 1), color(case, 4));
    (d as usize) == word(case, 7) + 65536 * word(case, 9)
}

fn entry(f: Option<(usize, u32)>) -> usize {
    match f {
        Some((i, _)) => i,
        None => 255,
    }
}

// A colour and its entry of PEC's palette.
fn nearest(case: &[u8]) -> bool {
    let f = formats::nearest_index(color(case, 1), formats::pec_palette());
    entry(f) == byte(case, 4) as usize
}

// A table of threads and JEF's entries for them.
fn jef(case: &[u8]) -> bool {
    let n = byte(case, 1) as usize;
    let mut last = None;
    for i in 0..n {
        let t = color(case, 2 + 3 * i);
        let k = jef_threads::entry_of(jef_threads::jef_choice(last, t));
        if k != byte(case, 2 + 3 * n + i) as usize {
            return false;
        }
        last = Some((k, t));
    }
    true
}

// An entry of the palette, if the case's bits keep it.
fn kept(case: &[u8], s: Option<Color>, i: usize) -> Option<Color>
    requires { i < 65 }
{
    let bits = byte(case, 4 + i / 8);
    if (bits >> (i % 8)) % 2 == 1 {
        return s;
    }
    None
}

// A colour and its entry of a part of PEC's palette.
fn part(case: &[u8]) -> bool {
    let mut palette = formats::pec_palette();
    for i in 0..65 {
        palette[i] = kept(case, palette[i], i);
    }
    let f = formats::nearest_index(color(case, 1), palette);
    entry(f) == byte(case, 13) as usize
}

fn same_bounds(b: Bounds, case: &[u8], at: usize) -> bool
    requires { at < 1000000 }
{
    if b.min.x != signed_word(case, at) {
        return false;
    }
    if b.min.y != signed_word(case, at + 2) {
        return false;
    }
    if b.max.x != signed_word(case, at + 4) {
        return false;
    }
    b.max.y == signed_word(case, at + 6)
}

// Places and their bounds; at most 64 places.
fn bounds(case: &[u8]) -> bool {
    let n = word(case, 1);
    if 64 < n {
        return false;
    }
    let mut xs = [0i32; 64];
    let mut ys = [0i32; 64];
    let kinds = [0u8; 64];
    for i in 0..n {
        xs[i] = signed_word(case, 3 + 4 * i);
        ys[i] = signed_word(case, 5 + 4 * i);
    }
    let b = formats::stream_bounds(&xs[..n], &ys[..n], &kinds[..n]);
    same_bounds(b, case, 3 + 4 * n)
}

// Thumbnails: the scale and the two offsets of a picture, and a place's pixel number, in f64.
// A port of src/formats/pes.rs of zigzag, changed.
#![tactic(auto)]

ghost use Rattle.std.specs.Prelude.{◌≡◌};
ghost use Rattle.rules.specs.Thumbnails.{at_least_one, lesser, span_of, middle, scale_by, offset, scale_of, floor_of, within};
ghost use Rattle.thumbnail_scale.specs.Places.{scaled_at};

use rules::Scale;

// The larger of a number and 1.0.
fn at_least_one(x: f64) -> f64
    ensures { result ≡ at_least_one x }
{
    if 1.0 < x {
        return x;
    }
    1.0
}

fn lesser(x: f64, y: f64) -> f64
    ensures { result ≡ lesser x y }
{
    if x < y {
        return x;
    }
    y
}

// A width or a height.
fn span_of(a: i32, b: i32) -> f64
    ensures { result ≡ span_of a b }
{
    (b as f64) - (a as f64)
}

fn middle(a: i32, b: i32) -> f64
    ensures { result ≡ middle a b }
{
    (a as f64) + ((b as f64) - (a as f64)) * 0.5
}

// How far the middle, scaled, is from half the picture.
fn offset(c: f64, scale: f64, half: f64) -> f64
    ensures { result ≡ offset c scale half }
{
    -c * scale + half
}

// The scale that fits the bounds into the picture less the buffer.
fn scale_by(x0: i32, y0: i32, x1: i32, y1: i32, buffer: f64) -> f64
    ensures { result ≡ scale_by x0 y0 x1 y1 buffer }
{
    let w = at_least_one(span_of(x0, x1));
    let h = at_least_one(span_of(y0, y1));
    lesser((48.0 - buffer) / w, (38.0 - buffer) / h)
}

// The scale and the two offsets, worked out once for a thumbnail.
pub fn scale_of(x0: i32, y0: i32, x1: i32, y1: i32, buffer: f64) -> Scale
    ensures { result ≡ scale_of x0 y0 x1 y1 buffer }
{
    let scale = scale_by(x0, y0, x1, y1, buffer);
    Scale {
        scale,
        tx: offset(middle(x0, x1), scale, 24.0),
        ty: offset(middle(y0, y1), scale, 19.0),
    }
}

// The floor of a number where it is a column or could be a row, and 48 elsewhere.
pub fn floor(x: f64) -> usize
    ensures { result ≡ within (floor_of x) }
{
    if x < 0.0 {
        return 48;
    }
    if x < 48.0 {
        return std::num::truncating_f64_to_u64(x) as usize;
    }
    48
}

// From a place on one axis to a place in the picture.
pub fn scaled(z: i32, scale: f64, t: f64) -> f64
    ensures { result ≡ scaled_at z scale t }
{
    (z as f64) * scale + t
}

// Places and bounds, in tenths of a millimetre; +y points down.
// A port of src/geom.rs of zigzag, changed.
#![tactic(auto)]

ghost use Rattle.std.specs.Prelude.{◌≡◌, ◌<◌, ◌^◌, nat_abs, ◌-ℤ◌};
ghost use Rattle.std.specs.Int.Signed.{lt_z};
ghost use Rattle.geom.specs.Frames.{place, frame, nothing, added, width_of, height_of};

#[derive(Clone, Copy)]
pub struct P {
    pub x: i32,
    pub y: i32,
}

#[derive(Clone, Copy)]
pub struct Bounds {
    pub min: P,
    pub max: P,
}

// The difference b - a.
pub fn span(a: i32, b: i32) -> i64
    ensures { result ≡ b -ℤ a }
{
    (b as i64) - (a as i64)
}

// The same between two places on an axis, where it fits 32 bits.
pub fn step(from: i32, to: i32) -> i32
    requires { nat_abs (to -ℤ from) < 2 ^ 31 }
    ensures { result ≡ to -ℤ from }
{
    to - from
}

fn widened(x0: i32, y0: i32, x1: i32, y1: i32, x: i32, y: i32) -> Bounds
    ensures { result ≡ added (frame x0 y0 x1 y1) (place x y) }
{
    Bounds {
        min: P {
            x: x0.min(x),
            y: y0.min(y),
        },
        max: P {
            x: x1.max(x),
            y: y1.max(y),
        },
    }
}

impl P {
    pub fn new(x: i32, y: i32) -> P
        ensures { result ≡ place x y }
    {
        P { x, y }
    }
}

impl Bounds {
    // No place yet: the least and the greatest number change places.
    pub fn empty() -> Bounds
        ensures { result ≡ nothing }
    {
        Bounds {
            min: P {
                x: 2147483647,
                y: 2147483647,
            },
            max: P {
                x: -2147483648,
                y: -2147483648,
            },
        }
    }

    // The bounds with one more place.
    pub fn add(self, p: P) -> Bounds
        ensures { result ≡ added self p }
    {
        widened(self.min.x, self.min.y, self.max.x, self.max.y, p.x, p.y)
    }

    pub fn is_empty(self) -> bool
        ensures { result ≡ lt_z self.max.x self.min.x }
    {
        self.max.x < self.min.x
    }

    // 0 where there is no place.
    pub fn width(self) -> i64
        ensures { result ≡ width_of self }
    {
        if self.is_empty() {
            return 0;
        }
        span(self.min.x, self.max.x)
    }

    pub fn height(self) -> i64
        ensures { result ≡ height_of self }
    {
        if self.is_empty() {
            return 0;
        }
        span(self.min.y, self.max.y)
    }
}

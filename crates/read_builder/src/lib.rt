// Reading: what has been read so far, the colours of blocks, and the cuts of a DST.
// The builder is one small record that is passed by mutable reference; here is what each record of a file makes of it.
// A port of src/formats/read.rs of zigzag, changed.
#![tactic(auto)]

pub mod colors;
pub mod cuts;

ghost use Rattle.std.specs.Prelude.{◌≡◌, ◌+◌, ◌^◌, ◌<◌, ◌≤◌, ◌+ℤ◌};
ghost use Rattle.std.specs.Int.Signed.{mag};
ghost use Rattle.read_records.specs.Fields.{len_of};
ghost use Rattle.read_builder.specs.Builders.{Small, Counted, origin, stitched, jumped, changed, finished, some, opening, place_after};

use rules::{Counts, Record};

// The place; the points of the open run, 0 where none is open; the number of the block and the runs begun in it; and all points,
// ended runs and listed blocks so far. No two neighbours are both left alone by a stitch, or by a jump: the compiler would keep
// them as one number, and the loops would be slower.
#[derive(Clone, Copy)]
pub struct Builder {
    pub x: i32,
    pub block: u32,
    pub y: i32,
    pub blocks: u32,
    pub run: u32,
    pub begun: u32,
    pub runs: u32,
    pub points: u32,
}

pub fn new() -> Builder
    ensures { result ≡ origin }
{
    Builder {
        x: 0,
        y: 0,
        run: 0,
        block: 0,
        begun: 0,
        points: 0,
        runs: 0,
        blocks: 0,
    }
}

// A place and a step that lead to no place past an i32.
pub fn sum(a: i32, b: i32) -> i32
    requires { mag (a +ℤ b) < 2 ^ 31 }
    ensures { result ≡ a +ℤ b }
{
    a + b
}

// 1 where the next stitch opens a run: the open one has n points, 0 where there is none.
fn opens(n: u32) -> u32
    ensures { result ≡ opening n }
{
    if n == 0 {
        return 1;
    }
    0
}

// The builder after a stitch to (x, y), which opens a run, of two points, if none is open.
pub fn after_stitch(b: Builder, x: i32, y: i32) -> Builder
    requires { Small b }
    ensures { result ≡ stitched b x y }
{
    let o = opens(b.run);
    Builder {
        x,
        y,
        run: b.run + 1 + o,
        begun: b.begun + o,
        points: b.points + 1 + o,
        ..b
    }
}

// 1 for a run that is open, or a block with runs.
fn one_if(n: u32) -> u32
    ensures { result ≡ some n }
{
    if n == 0 {
        return 0;
    }
    1
}

// The builder after a jump to (x, y), which ends the run.
pub fn after_jump(b: Builder, x: i32, y: i32) -> Builder
    requires { Small b }
    ensures { result ≡ jumped b x y }
{
    Builder {
        x,
        y,
        run: 0,
        runs: b.runs + one_if(b.run),
        ..b
    }
}

// The builder after a colour change, which ends run and block and then moves to (x, y).
pub fn after_change(b: Builder, x: i32, y: i32) -> Builder
    requires { Small b }
    ensures { result ≡ changed b x y }
{
    Builder {
        x,
        y,
        run: 0,
        block: b.block + 1,
        begun: 0,
        runs: b.runs + one_if(b.run),
        blocks: b.blocks + one_if(b.begun),
        ..b
    }
}

// The same three on a builder passed by mutable reference.
impl Builder {
    pub fn stitch(&mut self, x: i32, y: i32)
        requires { Small self.old }
        ensures { self.new ≡ stitched self.old x y }
    {
        *self = after_stitch(*self, x, y);
    }

    pub fn jump(&mut self, x: i32, y: i32)
        requires { Small self.old }
        ensures { self.new ≡ jumped self.old x y }
    {
        *self = after_jump(*self, x, y);
    }

    pub fn color_change(&mut self, x: i32, y: i32)
        requires { Small self.old }
        ensures { self.new ≡ changed self.old x y }
    {
        *self = after_change(*self, x, y);
    }
}

// The same three for the passes, which keep the builder by value: each passes it to the method by mutable reference and gives it back.
// Kept beside the methods: the specification names both forms, and `docs/` names these.
pub fn stitch(b: Builder, x: i32, y: i32) -> Builder
    requires { Small b }
    ensures { result ≡ stitched b x y }
{
    let mut c = b;
    c.stitch(x, y);
    c
}

pub fn jump(b: Builder, x: i32, y: i32) -> Builder
    requires { Small b }
    ensures { result ≡ jumped b x y }
{
    let mut c = b;
    c.jump(x, y);
    c
}

pub fn color_change(b: Builder, x: i32, y: i32) -> Builder
    requires { Small b }
    ensures { result ≡ changed b x y }
{
    let mut c = b;
    c.color_change(x, y);
    c
}

// Nothing more comes: the open run and its block end.
pub fn finish(b: Builder) -> Builder
    requires { Small b }
    ensures { result ≡ finished b }
{
    color_change(b, b.x, b.y)
}

// What a finished builder has counted.
pub fn counts(b: Builder) -> Counts
    requires { b.blocks ≤ b.runs }
    ensures { Counted b result }
{
    Counts {
        points: b.points,
        runs: b.runs,
        blocks: b.blocks,
        cuts: b.runs - b.blocks,
    }
}

// Where the next record stands; at the end of the n bytes once the reading has ended.
pub fn place_after(r: Record, at: usize, n: usize) -> usize
    requires { at + len_of r < 2 ^ 64 }
    ensures { result ≡ place_after r at n }
{
    match r {
        Record::StitchBy { len, .. } => at + len,
        Record::JumpBy { len, .. } => at + len,
        Record::ChangeBy { len, .. } => at + len,
        Record::Finish => n,
    }
}

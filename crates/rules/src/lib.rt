// The vocabulary that the definitions of specs/ and the code share. There is no code here but what tells a refusal in words.
#![tactic(auto)]

use std::error::Error;
use std::fmt;

// The formats, named by their extensions.
#[derive(Clone, Copy, Debug, PartialEq, Eq)]
pub enum Format {
    Pes,
    Pec,
    Dst,
    Exp,
    Jef,
    Vp3,
}

// What a command does. Kinds 0 to 4 stand for these in this order.
#[derive(Clone, Copy, Debug, PartialEq, Eq)]
pub enum Op {
    Stitch,
    Jump,
    Trim,
    ColorChange,
    End,
}

// One machine command at an absolute place, in tenths of a millimetre.
#[repr(C)]
#[derive(Clone, Copy)]
pub struct Cmd {
    pub x: i32,
    pub y: i32,
    pub kind: u8,
}

// The colour of a thread: red, green, blue.
#[derive(Clone, Copy, Debug, PartialEq, Eq)]
pub struct Color(pub u8, pub u8, pub u8);

// Why a call refuses: the error of every call, with the numbers 1 to 14 of the documents.
#[derive(Clone, Copy, Debug, PartialEq, Eq)]
pub enum Refusal {
    UnknownExtension = 1,
    FileTooLong,
    BadOpening,
    FileTooShort,
    StartBelowZero,
    BadList,
    PlaceOutside,
    TooMany,
    Moved,
    StepTooLong,
    BufferTooShort,
    OutOfRange,
    BadTag,
    BadLength,
}

// The sentences of README's table of refusals, which compare/programs.sh compares.
impl fmt::Display for Refusal {
    fn fmt<W: fmt::Write>(&self, f: &mut fmt::Formatter<W>) -> fmt::Result {
        f.write_str(match self {
            Refusal::UnknownExtension => {
                "an extension other than pes, pec, dst, exp, jef, vp3 (letters of either case)"
            }
            Refusal::FileTooLong => "a file or job longer than 2,097,152 bytes",
            Refusal::BadOpening => {
                "a PES that doesn't begin #PES, a VP3 that doesn't begin %vsm% and a zero byte"
            }
            Refusal::FileTooShort => {
                "PES under 12 bytes; PEC part without its count byte; DST under 512; JEF under 4; \
                 VP3 part that ends before or inside a fixed field ahead of stitches"
            }
            Refusal::StartBelowZero => "PES start below zero",
            Refusal::BadList => {
                "a list that is empty or over 65,535 commands, slices of unequal length, a kind over 4, \
                 or the end missing, early or repeated"
            }
            Refusal::PlaceOutside => "a place outside -16,000..16,000",
            Refusal::TooMany => {
                "over 254 colour changes or 255 threads, or thread bytes not a multiple of three"
            }
            Refusal::Moved => "a trim, colour change or end that moves",
            Refusal::StepTooLong => {
                "a step outside the format's limits: DST -121 to 121, EXP and JEF -127 to 127, \
                 PES and PEC -2,048 to 2,047"
            }
            Refusal::BufferTooShort => "a buffer shorter than the answer",
            Refusal::OutOfRange => {
                "a VP3 length that passes its enclosing part, \
                 or a place or block start beyond 32 signed bits"
            }
            Refusal::BadTag => "an unknown tag or kind in a job, a tag out of order, or no name",
            Refusal::BadLength => {
                "a job's field that passes the end, or a length other than at most 64 for a name, \
                 3 for a thread, a multiple of 5 for commands; a name over 64 bytes"
            }
        })
    }
}

impl Error for Refusal {}

// How much a read found: points, runs, blocks listed, and cuts.
#[derive(Clone, Copy)]
pub struct Counts {
    pub points: u32,
    pub runs: u32,
    pub blocks: u32,
    pub cuts: u32,
}

// What a write answers: the length of the file, and the largest distance of a thread from its entry.
#[derive(Clone, Copy)]
pub struct Written {
    pub len: usize,
    pub distance: u32,
}

// Why a list is not written and read back: not written, and why; or written, with the file's length, but not read, and why.
#[derive(Clone, Copy)]
pub enum RoundTripRefusal {
    NotWritten(Refusal),
    NotRead(usize, Refusal),
}

// How much a job holds: commands, and bytes of threads.
#[derive(Clone, Copy)]
pub struct JobCounts {
    pub commands: u32,
    pub thread_bytes: u32,
}

// A hoop: from left to right on the x axis, from top to bottom on the y axis, which points down.
#[derive(Clone, Copy)]
pub struct Hoop {
    pub left: i32,
    pub right: i32,
    pub top: i32,
    pub bottom: i32,
}

// What the first record of a list of bytes does, by how far it moves, and the bytes it takes.
#[derive(Clone, Copy)]
pub enum Record {
    StitchBy { dx: i32, dy: i32, len: usize },
    JumpBy { dx: i32, dy: i32, len: usize },
    ChangeBy { dx: i32, dy: i32, len: usize },
    // Nothing more is read: an end record, a control that no rule names, or half a record.
    Finish,
}

// The scale and the two offsets of a thumbnail.
#[derive(Clone, Copy)]
pub struct Scale {
    pub scale: f64,
    pub tx: f64,
    pub ty: f64,
}

// Limits of the domain; specs/Limits.antt has the same for the definitions.
pub const MOST_COMMANDS: usize = 65535;

pub const MOST_CHANGES: usize = 254;

pub const MOST_THREADS: usize = 255;

pub const LEAST_PLACE: i32 = -16000;

pub const GREATEST_PLACE: i32 = 16000;

pub const LONGEST_FILE: usize = 2097152;

pub const DST_HEADER: usize = 512;

// The bytes of a job's name, and the commands that are exported to a field of a job.
pub const LONGEST_NAME: usize = 64;

pub const FIELD_COMMANDS: usize = 1000;

// The cells of a block's record: number, colour, runs.
pub const BLOCK_CELLS: usize = 3;

// EXP and JEF: two stitches, or one record, in a turn.
// A port of src/formats/read.rs of zigzag, changed.
ghost use Rattle.std.specs.Prelude.{◌≡◌, ◌+◌, ◌≤◌, length, get_or};
ghost use Rattle.read_records.specs.Firsts.{pair_row};
ghost use Rattle.read_builder.specs.Builders.{origin};
ghost use Rattle.read_records.specs.Tables.{Kinds};
ghost use Rattle.read_fill.specs.Turns.{Room, Turns, Ends};

use read_builder::{Builder, new};
use read_passes::answers::{change, hop, sew};
use read_passes::{Turn, fill_rest, last_turn};
use read_records::bytes::{minus8, s8};
use read_records::pair::{kinds, row_of, step_x, step_y};

// A control.
fn turn_control(
    jef: bool,
    b: Builder,
    table: &[u8],
    bytes: &[u8],
    at: usize,
    colors: &[u32],
    places: &mut [i32],
    runs: &mut [u32],
    blocks: &mut [u32],
) -> Turn
    requires kinds { Kinds jef table.now }
    requires at_in_bounds { at + 4 ≤ length bytes.now }
    requires at_value { get_or bytes.now at 0 ≡ 0x80 }
    requires room { Room (pair_row jef) bytes colors b at places runs blocks }
    ensures { Turns (pair_row jef) bytes.now colors.now b at places runs blocks result }
{
    let c = bytes[at + 1];
    let k = table[c as usize];
    let dx = step_x(c, bytes[at + 2]);
    let dy = step_y(c, bytes[at + 3]);
    if k == 0 {
        return Turn {
            b: sew(b, dx, dy, places),
            at: at + 4,
        };
    }
    if k == 3 {
        return Turn { b, at: bytes.len() };
    }
    if k == 2 {
        return Turn {
            b: change(b, dx, dy, colors, runs, blocks),
            at: at + 4,
        };
    }
    Turn {
        b: hop(b, dx, dy, runs),
        at: at + 4,
    }
}

fn turn_pair(
    jef: bool,
    b: Builder,
    table: &[u8],
    bytes: &[u8],
    at: usize,
    colors: &[u32],
    places: &mut [i32],
    runs: &mut [u32],
    blocks: &mut [u32],
) -> Turn
    requires kinds { Kinds jef table.now }
    requires at_in_bounds { at + 4 ≤ length bytes.now }
    requires room { Room (pair_row jef) bytes colors b at places runs blocks }
    ensures { Turns (pair_row jef) bytes.now colors.now b at places runs blocks result }
{
    if bytes[at] == 0x80 {
        return turn_control(jef, b, table, bytes, at, colors, places, runs, blocks);
    }
    let one = sew(b, s8(bytes[at]), minus8(bytes[at + 1]), places);
    if bytes[at + 2] == 0x80 {
        return Turn { b: one, at: at + 2 };
    }
    Turn {
        b: sew(one, s8(bytes[at + 2]), minus8(bytes[at + 3]), places),
        at: at + 4,
    }
}

pub fn fill_pairs(
    jef: bool,
    bytes: &[u8],
    colors: &[u32],
    places: &mut [i32],
    runs: &mut [u32],
    blocks: &mut [u32],
) -> Builder
    requires { Room (pair_row jef) bytes colors origin 0 places runs blocks }
    ensures { Ends (pair_row jef) bytes.now colors.now places runs blocks result }
{
    let table = kinds(jef);
    let mut b = new();
    let mut at: usize = 0;
    let end = last_turn(bytes.len(), 4);
    // Kept as while: each turn goes on by its record's own length.
    while at < end {
        let t = turn_pair(jef, b, &table, bytes, at, colors, places, runs, blocks);
        b = t.b;
        at = t.at;
    }
    fill_rest(row_of(jef), bytes, at, b, colors, places, runs, blocks)
}

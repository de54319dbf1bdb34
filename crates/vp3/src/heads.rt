// What stands before the stitches: the fields of the file, of the design and of a colour block.
// A port of src/formats/more.rs of zigzag, changed.
ghost use Rattle.std.specs.Prelude.{◌≡◌, [], ◌+◌, ◌≤◌, ◌<◌, nat_abs, length};
ghost use Rattle.rules.specs.Vp3.{hex_char, hex_text};
ghost use Rattle.laws.specs.Buffers.{Puts};
ghost use Rattle.vp3.specs.Heads.{Near, Wide, NearWay, opening_text, sizes_text, halves_text, design_text, color_bytes, block_text};

use emit::{put, put_text, put2, put3, put4, spread};
use geom::Bounds;
use rules::Color;
use vp3_cmd::{half, put_be16, put_be32, put_hundred, put_text16};

// Twice the centre of a design.
#[derive(Clone, Copy)]
pub struct Middle {
    pub x: i32,
    pub y: i32,
}

// A block of commands: where it starts and ends, and the bytes of its stitches.
#[derive(Clone, Copy)]
pub struct Way {
    pub x: i32,
    pub y: i32,
    pub to_x: i32,
    pub to_y: i32,
    pub len: usize,
}

// The opening, a fixed text, and the length of the file part.
pub fn put_opening(len: usize, out: &mut [u8]) -> usize
    requires { (len < 4294967296) × (71 ≤ length out.old) }
    ensures { Puts out 0 result (opening_text len) }
{
    let zero = put_text(out, 0, b"%vsm%");
    let producer = put(out, zero, 0x00);
    let mark = put_text16(out, producer, b"Produced by     Software Ltd");
    let size = put3(out, mark, 0x00, 0x02, 0x00);
    put_be32(out, size, len as u32)
}

// Bounds, commands but the end, blocks, and the length of the design part.
pub fn put_sizes(
    b: Bounds,
    commands: usize,
    blocks: usize,
    len: usize,
    out: &mut [u8],
    at: usize,
) -> usize
    requires { Near b × ((commands ≤ 65535) × ((blocks ≤ 255) × ((len < 4294967296) × (at + 34 ≤ length out.old)))) }
    ensures { Puts out at result (sizes_text b commands blocks len) }
{
    let right = put2(out, at, 0x00, 0x00);
    let top = put_hundred(out, right, b.max.x);
    let left = put_hundred(out, top, 0 - b.min.y);
    let bottom = put_hundred(out, left, b.min.x);
    let count = put_hundred(out, bottom, 0 - b.max.y);
    let first = put_be32(out, count, commands as u32);
    let second = put2(out, first, 0x00, blocks as u8);
    let third = put3(out, second, 0x0C, 0x00, 0x01);
    let size = put3(out, third, 0x00, 0x03, 0x00);
    put_be32(out, size, len as u32)
}

// Half sizes with both signs, and the size.
fn put_halves(w: u32, h: u32, out: &mut [u8], at: usize) -> usize
    requires { (w ≤ 32000) × ((h ≤ 32000) × (at + 24 ≤ length out.old)) }
    ensures { Puts out at result (halves_text w h) }
{
    let x = (w / 2) as i32;
    let y = (h / 2) as i32;
    let second = put_hundred(out, at, 0 - x);
    let third = put_hundred(out, second, x);
    let fourth = put_hundred(out, third, 0 - y);
    let fifth = put_hundred(out, fourth, y);
    let sixth = put_hundred(out, fifth, w as i32);
    put_hundred(out, sixth, h as i32)
}

// Centre, sizes, a text, four numbers, a fixed text, and the count of blocks.
pub fn put_design(b: Bounds, m: Middle, blocks: usize, out: &mut [u8], at: usize) -> usize
    requires { Near b × (Wide m × ((blocks ≤ 255) × (at + 121 ≤ length out.old))) }
    ensures { Puts out at result (design_text b m blocks) }
{
    let y = put_hundred(out, at, half(m.x));
    let zeros = put_hundred(out, y, 0 - half(m.y));
    let sizes = put3(out, zeros, 0x00, 0x00, 0x00);
    let w = spread(b.min.x, b.max.x);
    let h = spread(b.min.y, b.max.y);
    let empty = put_halves(w, h, out, sizes);
    let matrix = put4(out, empty, 0x00, 0x00, 0x64, 0x64);
    let second = put_be32(out, matrix, 4096);
    let third = put_be32(out, second, 0);
    let fourth = put_be32(out, third, 0);
    let mark = put_be32(out, fourth, 4096);
    let version = put_text(out, mark, b"xxPP");
    let producer = put2(out, version, 0x01, 0x00);
    let count = put_text16(out, producer, b"Produced by     Software Ltd");
    put_be16(out, count, blocks)
}

// A digit from 0 to 15 as a character.
fn hex_char(d: u8) -> u8
    requires { d < 16 }
    ensures { result ≡ hex_char d }
{
    if d < 10 {
        return 0x30 + d;
    }
    0x57 + d
}

// A byte as two of them.
fn put_hex(b: u8, out: &mut [u8], at: usize) -> usize
    requires { at + 2 ≤ length out.old }
    ensures { Puts out at result (hex_text b) }
{
    put2(out, at, hex_char(b / 16), hex_char(b % 16))
}

// A colour, and three texts, the second its own as `#rrggbb`.
fn put_color(c: Color, out: &mut [u8], at: usize) -> usize
    requires { at + 23 ≤ length out.old }
    ensures { Puts out at result (color_bytes c) }
{
    let red = put2(out, at, 0x01, 0x00);
    let zeros = put3(out, red, c.0, c.1, c.2);
    let mark = put3(out, zeros, 0x00, 0x00, 0x00);
    let empty = put2(out, mark, 0x05, 0x28);
    let length = put2(out, empty, 0x00, 0x00);
    let hash = put3(out, length, 0x00, 0x07, 0x23);
    let r = put_hex(c.0, out, hash);
    let g = put_hex(c.1, out, r);
    let last = put_hex(c.2, out, g);
    put2(out, last, 0x00, 0x00)
}

// A colour block up to its stitches: 56 bytes.
pub fn put_block_head(m: Middle, w: Way, c: Color, out: &mut [u8], at: usize) -> usize
    requires { Wide m × (NearWay w × (at + 56 ≤ length out.old)) }
    ensures { Puts out at result (block_text m w c) }
{
    let size = put3(out, at, 0x00, 0x05, 0x00);
    let x = put_be32(out, size, (w.len + 50) as u32);
    let y = put_hundred(out, x, half(2 * w.x - m.x));
    let color = put_hundred(out, y, 0 - half(2 * w.y - m.y));
    let dx = put_color(c, out, color);
    let dy = put_hundred(out, dx, w.to_x - w.x);
    let mark = put_hundred(out, dy, 0 - (w.to_y - w.y));
    let length = put3(out, mark, 0x00, 0x01, 0x00);
    let opening = put_be32(out, length, (w.len + 3) as u32);
    put3(out, opening, 0x0A, 0xF6, 0x00)
}

// DST: the header, and whole files.
// A port of src/formats/dst.rs of zigzag, changed.
#![tactic(auto)]

ghost use Rattle.std.specs.Prelude.{◌≡◌, false, ◌+◌, ◌-◌, ◌≤◌, eqb, pos, nat_abs, length, get_or, replicate, Some};
ghost use Rattle.std.specs.Int.Signed.{non_neg};
ghost use Rattle.rules.specs.Files.{write_answer};
ghost use Rattle.rules.specs.Vocabulary.{pick, count, padded, right};
ghost use Rattle.rules.specs.Lists.{commands, op_of, is_trim, dst_name};
ghost use Rattle.rules.specs.Dst.{line, signed_right, dst_text, dst_file};
ghost use Rattle.rules.specs.Refusals.{step_too_long};
ghost use Rattle.rules.specs.Promises.{Wrote};
ghost use Rattle.rules.specs.declared.Format.TheVariants.{Dst};
ghost use Rattle.laws.specs.Buffers.{Puts};
ghost use Rattle.emit.specs.Answered.{Answered};
ghost use Rattle.dst.specs.Lines.{trimming, counts_text, bounds_text, last_text, end_text};

use emit::{put, put_name, put_right, put_text, put_times, put2, put3, size};
use formats::{list_len, op_of, stream_bounds};
use geom::Bounds;
use rules::{DST_HEADER, Format, Op, Refusal, Written};
use stream::{put_stream, stream_len};
use stream_cmd::Stream;
use write_refusals::{check_list, color_changes};

fn sign_of(z: i64) -> u8
    ensures { result ≡ pick (non_neg z) 0x2B 0x2D }
{
    if z < 0 {
        return 0x2D;
    }
    0x2B
}

// A line of two characters and a number in n columns.
fn put_number(a: u8, b: u8, n: usize, v: u32, out: &mut [u8], at: usize) -> usize
    requires { (n ≤ 10) × (at + (n + 4) ≤ length out.old) }
    ensures { Puts out at result (line a b (right n v)) }
{
    let text = put3(out, at, a, b, 0x3A);
    let end = put_right(out, text, n, v);
    put(out, end, 0x0D)
}

// A line of two characters, a sign and a number in five columns.
fn put_signed(a: u8, b: u8, z: i64, out: &mut [u8], at: usize) -> usize
    requires z_bound { nat_abs z ≤ 4294967295 }
    requires at_in_bounds { at + 10 ≤ length out.old }
    ensures { Puts out at result (line a b (signed_right z)) }
{
    let sign = put3(out, at, a, b, 0x3A);
    let text = put(out, sign, sign_of(z));
    let end = put_right(out, text, 5, size(z));
    put(out, end, 0x0D)
}

// `LA:`, the label.
fn put_label(name: &[u8], out: &mut [u8], at: usize) -> usize
    requires { at + 20 ≤ length out.old }
    ensures { Puts out at result (line 0x4C 0x41 (padded 16 (dst_name name.now))) }
{
    let text = put3(out, at, 0x4C, 0x41, 0x3A);
    let end = put_name(name, 0x20, 0x7F, 16, out, text);
    put(out, end, 0x0D)
}

// `ST:` and `CO:`, records and colour changes.
fn put_counts(records: u32, colors: u32, out: &mut [u8], at: usize) -> usize
    requires { at + 18 ≤ length out.old }
    ensures { Puts out at result (counts_text records colors) }
{
    let next = put_number(0x53, 0x54, 7, records, out, at);
    put_number(0x43, 0x4F, 3, colors, out, next)
}

// `+X:`, `-X:`, `+Y:`, `-Y:`, the bounds.
fn put_bounds(b: Bounds, out: &mut [u8], at: usize) -> usize
    requires { at + 36 ≤ length out.old }
    ensures { Puts out at result (bounds_text b.max.x b.min.x b.max.y b.min.y) }
{
    let second = put_number(0x2B, 0x58, 5, size(b.max.x as i64), out, at);
    let third = put_number(0x2D, 0x58, 5, size(b.min.x as i64), out, second);
    let fourth = put_number(0x2B, 0x59, 5, size(b.max.y as i64), out, third);
    put_number(0x2D, 0x59, 5, size(b.min.y as i64), out, fourth)
}

// `AX:`, `AY:`, the last place, and `MX:`, `MY:`, both 0.
fn put_last(x: i32, y: i32, out: &mut [u8], at: usize) -> usize
    requires { at + 40 ≤ length out.old }
    ensures { Puts out at result (last_text x y) }
{
    let second = put_signed(0x41, 0x58, x as i64, out, at);
    let third = put_signed(0x41, 0x59, 0 - (y as i64), out, second);
    let fourth = put_signed(0x4D, 0x58, 0, out, third);
    put_signed(0x4D, 0x59, 0, out, fourth)
}

// `PD:`, and the end of the text.
fn put_end(out: &mut [u8], at: usize) -> usize
    requires { at + 11 ≤ length out.old }
    ensures { Puts out at result end_text }
{
    let text = put3(out, at, 0x50, 0x44, 0x3A);
    let end = put_times(out, text, 0x2A, 6);
    put2(out, end, 0x0D, 0x1A)
}

#[tactic(auto, unfolding(rules::specs::Lists::is_trim))]
fn is_trim(kind: u8) -> bool
    ensures { result ≡ is_trim (op_of kind) }
{
    let op = op_of(kind);
    match op {
        Op::Trim => true,
        Op::Stitch | Op::Jump | Op::ColorChange | Op::End => false,
    }
}

// How many commands trim.
fn trims(xs: &[i32], ys: &[i32], kinds: &[u8]) -> usize
    ensures { (result ≡ count trimming (commands xs.now ys.now kinds.now)) × (result ≤ length kinds.now) }
{
    let n = list_len(xs, ys, kinds);
    let mut found = 0;
    for i in 0..n {
        if is_trim(kinds[i]) {
            found += 1;
        }
    }
    found
}

// The last of n places on one axis; 0 where there is none.
fn last(zs: &[i32], n: usize) -> i32
    requires { n ≤ length zs.now }
    ensures { result ≡ pick (eqb n 0) (pos 0) (get_or zs.now (n - 1) (pos 0)) }
{
    if n == 0 {
        return 0;
    }
    zs[n - 1]
}

// The 125 bytes of text.
fn put_text_of(name: &[u8], xs: &[i32], ys: &[i32], kinds: &[u8], out: &mut [u8]) -> usize
    requires { (length kinds.now ≤ 65535) × (125 ≤ length out.old) }
    ensures { Puts out 0 result (dst_text name.now (commands xs.now ys.now kinds.now)) }
{
    let n = list_len(xs, ys, kinds);
    let records = n + 2 * trims(xs, ys, kinds);
    let colors = color_changes(xs, ys, kinds);
    let second = put_label(name, out, 0);
    let third = put_counts(records as u32, colors as u32, out, second);
    let fourth = put_bounds(stream_bounds(xs, ys, kinds), out, third);
    let fifth = put_last(last(xs, n), last(ys, n), out, fourth);
    put_end(out, fifth)
}

// Blanks behind the text, up to the header's 512 bytes.
fn put_blanks(out: &mut [u8], at: usize) -> usize
    requires { at + 387 ≤ length out.old }
    ensures { Puts out at result (replicate 387 0x20) }
{
    let blanks = [0x20u8; 387];
    put_text(out, at, &blanks)
}

// A whole file: the text, blanks up to 512, the records.
fn put_file(name: &[u8], xs: &[i32], ys: &[i32], kinds: &[u8], out: &mut [u8]) -> usize
    requires kinds_len_bound { (length kinds.now ≤ 65535) × (step_too_long Dst (commands xs.now ys.now kinds.now) ≡ false) }
    requires kinds_in_bounds { length (dst_file name.now (commands xs.now ys.now kinds.now)) ≤ length out.old }
    ensures { Puts out 0 result (dst_file name.now (commands xs.now ys.now kinds.now)) }
{
    let blanks = put_text_of(name, xs, ys, kinds, out);
    let records = put_blanks(out, blanks);
    put_stream(Stream::Dst, xs, ys, kinds, out, records)
}

// The file, or refusal 11.
fn write_accepted(
    name: &[u8],
    xs: &[i32],
    ys: &[i32],
    kinds: &[u8],
    out: &mut [u8],
) -> Result<Written, Refusal>
    requires { (length kinds.now ≤ 65535) × (step_too_long Dst (commands xs.now ys.now kinds.now) ≡ false) }
    ensures { Answered (write_answer 0) (dst_file name.now (commands xs.now ys.now kinds.now)) out.old out.new result }
{
    let n = DST_HEADER + stream_len(Stream::Dst, xs, ys, kinds);
    if out.len() < n {
        return Err(Refusal::BufferTooShort);
    }
    Ok(Written {
        len: put_file(name, xs, ys, kinds, out),
        distance: 0,
    })
}

// Writes a list as a DST file to the front of the buffer: its length; or why it is refused, and the buffer as it was.
pub fn dst_from_stream(
    name: &[u8],
    xs: &[i32],
    ys: &[i32],
    kinds: &[u8],
    threads: &[u8],
    out: &mut [u8],
) -> Result<Written, Refusal>
    ensures { Wrote (Some Dst) name.now xs.now ys.now kinds.now threads.now out.old out.new result }
{
    check_list(Format::Dst, xs, ys, kinds, threads)?;
    write_accepted(name, xs, ys, kinds, out)
}

// JEF: header, two tables of threads, the commands' bytes.
// A port of src/formats/more.rs of zigzag, changed.
#![tactic(auto)]

ghost use Rattle.std.specs.Prelude.{◌≡◌, ◌&&◌, false, [], ◌∷◌, ◌+◌, ◌*◌, ◌≤◌, ltb, length, replicate, Some, None};
ghost use Rattle.rules.specs.Choices.{jef_entries};
ghost use Rattle.rules.specs.Jef.{points_in, point_count_of, jef_hoop, half_up, edges, jef_table, jef_distance, words, jef_header, jef_file};
ghost use Rattle.rules.specs.Lists.{commands, threads_of};
ghost use Rattle.rules.specs.Refusals.{place_outside, step_too_long};
ghost use Rattle.rules.specs.Promises.{Wrote};
ghost use Rattle.rules.specs.declared.Format.TheVariants.{Jef};
ghost use Rattle.laws.specs.Buffers.{Puts};
ghost use Rattle.emit.specs.Answered.{FileAnswered};
ghost use Rattle.formats.specs.Matches.{Matches};
ghost use Rattle.jef.specs.Header.{start_text, sizes_text};

use emit::{put_text, put_times, put_word, put2, spread};
use formats::{Matched, list_len, near_bounds, op_of};
use jef_threads::{choice_in, distance_of, entry_of, jef_threads};
use rules::{Color, Format, Op, Refusal, Written};
use stream::{put_stream, stream_len};
use stream_cmd::Stream;
use write_refusals::check_list;

fn points_in(op: Op) -> u32
    ensures { (result ≡ points_in op) × (result ≤ 2) }
{
    match op {
        Op::Stitch => 1,
        Op::Jump | Op::ColorChange => 2,
        Op::Trim | Op::End => 0,
    }
}

// The header's count of points.
fn point_count(xs: &[i32], ys: &[i32], kinds: &[u8]) -> u32
    requires { length kinds.now ≤ 65535 }
    ensures { result ≡ point_count_of (commands xs.now ys.now kinds.now) }
{
    let n = list_len(xs, ys, kinds);
    let mut total = 1;
    for i in 0..n {
        total += points_in(op_of(kinds[i]));
    }
    total
}

fn is_under(w: u32, h: u32, wide: u32, high: u32) -> bool
    ensures { result ≡ (ltb w wide && ltb h high) }
{
    w < wide && h < high
}

// Kept as a number: it is the file's own field, and the definition `jef_hoop` gives it.
pub fn jef_hoop(w: u32, h: u32) -> u32
    ensures { result ≡ jef_hoop w h }
{
    if is_under(w, h, 500, 500) {
        return 1;
    }
    if is_under(w, h, 1260, 1100) {
        return 3;
    }
    if is_under(w, h, 1400, 2000) {
        return 2;
    }
    if is_under(w, h, 2000, 2000) {
        return 4;
    }
    0
}

// Half of a size, a half going up.
fn half_up(n: u32) -> u32
    ensures { result ≡ half_up n }
{
    n / 2 + n % 2
}

// Four numbers, two of them twice.
fn put_twice(a: u32, b: u32, out: &mut [u8], at: usize) -> usize
    requires { at + 16 ≤ length out.old }
    ensures { Puts out at result (words (a ∷ b ∷ a ∷ b ∷ [])) }
{
    let second = put_word(out, at, a);
    let third = put_word(out, second, b);
    let fourth = put_word(out, third, a);
    put_word(out, fourth, b)
}

// The distances to the edges of a hoop of half sizes (ex, ey), -1 each where the design does not fit.
fn put_edges(ex: u32, ey: u32, w: u32, h: u32, out: &mut [u8], at: usize) -> usize
    requires { at + 16 ≤ length out.old }
    ensures { Puts out at result (edges ex ey w h) }
{
    let x = half_up(w);
    let y = half_up(h);
    if ex < x {
        return put_times(out, at, 0xFF, 16);
    }
    if ey < y {
        return put_times(out, at, 0xFF, 16);
    }
    put_twice(ex - x, ey - y, out, at)
}

// The entries of the threads, each not that of a neighbour of another colour, and their largest distance.
fn put_entries(threads: &[u8], out: &mut [u8], at: usize) -> Matched
    requires { at + length (words (jef_entries None (threads_of threads.now))) ≤ length out.old }
    ensures { Matches out at result (words (jef_entries None (threads_of threads.now))) (jef_distance (threads_of threads.now)) }
{
    let chart = jef_threads();
    let mut last = None;
    let mut far: u32 = 0;
    let mut to = at;
    for thread in threads.chunks_exact(3) {
        let t = Color(thread[0], thread[1], thread[2]);
        let chosen = choice_in(chart, last, t);
        let e = entry_of(chosen);
        last = Some((e, t));
        far = far.max(distance_of(chosen));
        to = put_word(out, to, e as u32);
    }
    Matched {
        end: to,
        distance: far,
    }
}

// The thread table; no threads: one entry 1.
fn jef_palette(threads: &[u8], out: &mut [u8], at: usize) -> Matched
    requires { at + length (words (jef_table (threads_of threads.now))) ≤ length out.old }
    ensures { Matches out at result (words (jef_table (threads_of threads.now))) (jef_distance (threads_of threads.now)) }
{
    if threads.len() < 3 {
        return Matched {
            end: put_word(out, at, 1),
            distance: 0,
        };
    }
    put_entries(threads, out, at)
}

// How long the thread table is.
fn table_len(threads: &[u8]) -> usize
    ensures { result ≡ length (jef_table (threads_of threads.now)) }
{
    if threads.len() < 3 {
        return 1;
    }
    threads.len() / 3
}

// The second table: n times 0x0D.
fn put_kinds(n: usize, out: &mut [u8], at: usize) -> usize
    requires { at + 4 * n ≤ length out.old }
    ensures { Puts out at result (words (replicate n 0x0D)) }
{
    let mut to = at;
    for i in 0..n {
        to = put_word(out, to, 0x0D);
    }
    to
}

// Offset, 0x14, date, threads, points, hoop.
fn put_start(n: usize, points: u32, hoop: u32, out: &mut [u8]) -> usize
    requires { (n ≤ 65535) × (36 ≤ length out.old) }
    ensures { Puts out 0 result (start_text n points hoop) }
{
    let second = put_word(out, 0, (0x74 + 8 * n) as u32);
    let date = put_word(out, second, 0x14);
    let zeros = put_text(out, date, b"20260101000000");
    let fourth = put2(out, zeros, 0x00, 0x00);
    let fifth = put_word(out, fourth, n as u32);
    let sixth = put_word(out, fifth, points);
    put_word(out, sixth, hoop)
}

// Half sizes, and the edges of four hoops.
fn put_sizes(w: u32, h: u32, out: &mut [u8], at: usize) -> usize
    requires { at + 80 ≤ length out.old }
    ensures { Puts out at result (sizes_text w h) }
{
    let second = put_twice(half_up(w), half_up(h), out, at);
    let third = put_edges(550, 550, w, h, out, second);
    let fourth = put_edges(250, 250, w, h, out, third);
    let fifth = put_edges(700, 1000, w, h, out, fourth);
    put_edges(700, 1000, w, h, out, fifth)
}

// The header; the distance is the thread table's.
fn put_header(xs: &[i32], ys: &[i32], kinds: &[u8], threads: &[u8], out: &mut [u8]) -> Matched
    requires kinds_len_bound { (length kinds.now ≤ 65535) × (length threads.now ≤ 765) }
    requires kinds_value { place_outside (commands xs.now ys.now kinds.now) ≡ false }
    requires threads_in_bounds { length (jef_header (commands xs.now ys.now kinds.now) (threads_of threads.now)) ≤ length out.old }
    ensures { Matches out 0 result (jef_header (commands xs.now ys.now kinds.now) (threads_of threads.now)) (jef_distance (threads_of threads.now)) }
{
    let n = table_len(threads);
    let b = near_bounds(xs, ys, kinds);
    let w = spread(b.min.x, b.max.x);
    let h = spread(b.min.y, b.max.y);
    let sizes = put_start(n, point_count(xs, ys, kinds), jef_hoop(w, h), out);
    let table = put_sizes(w, h, out, sizes);
    let second = jef_palette(threads, out, table);
    Matched {
        end: put_kinds(n, out, second.end),
        distance: second.distance,
    }
}

// A whole file.
fn put_file(xs: &[i32], ys: &[i32], kinds: &[u8], threads: &[u8], out: &mut [u8]) -> Matched
    requires kinds_len_bound { (length kinds.now ≤ 65535) × ((length threads.now ≤ 765) × (step_too_long Jef (commands xs.now ys.now kinds.now) ≡ false)) }
    requires kinds_value { place_outside (commands xs.now ys.now kinds.now) ≡ false }
    requires threads_in_bounds { length (jef_file (commands xs.now ys.now kinds.now) (threads_of threads.now)) ≤ length out.old }
    ensures { Matches out 0 result (jef_file (commands xs.now ys.now kinds.now) (threads_of threads.now)) (jef_distance (threads_of threads.now)) }
{
    let records = put_header(xs, ys, kinds, threads, out);
    Matched {
        end: put_stream(Stream::Jef, xs, ys, kinds, out, records.end),
        distance: records.distance,
    }
}

// The file, or refusal 11.
fn write_accepted(
    xs: &[i32],
    ys: &[i32],
    kinds: &[u8],
    threads: &[u8],
    out: &mut [u8],
) -> Result<Written, Refusal>
    requires kinds_len_bound { (length kinds.now ≤ 65535) × ((length threads.now ≤ 765) × (step_too_long Jef (commands xs.now ys.now kinds.now) ≡ false)) }
    requires kinds_value { place_outside (commands xs.now ys.now kinds.now) ≡ false }
    ensures { FileAnswered Jef [] (commands xs.now ys.now kinds.now) threads.now out.old out.new result }
{
    let n = 116 + 8 * table_len(threads) + stream_len(Stream::Jef, xs, ys, kinds);
    if out.len() < n {
        return Err(Refusal::BufferTooShort);
    }
    let w = put_file(xs, ys, kinds, threads, out);
    Ok(Written {
        len: w.end,
        distance: w.distance,
    })
}

// Writes a list as a JEF file to the front of the buffer: its length, and how far off the threads are; or why it is refused, and the buffer
// as it was.
pub fn write_jef(
    xs: &[i32],
    ys: &[i32],
    kinds: &[u8],
    threads: &[u8],
    out: &mut [u8],
) -> Result<Written, Refusal>
    ensures { Wrote (Some Jef) [] xs.now ys.now kinds.now threads.now out.old out.new result }
{
    check_list(Format::Jef, xs, ys, kinds, threads)?;
    write_accepted(xs, ys, kinds, threads, out)
}

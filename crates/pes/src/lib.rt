// PEC and PES files.
// A port of src/formats/pes.rs of zigzag, changed.
#![tactic(auto)]

ghost use Rattle.std.specs.Prelude.{◌≡◌, false, ◌+◌, ◌≤◌, length, Some};
ghost use Rattle.rules.specs.Lists.{commands, threads_of};
ghost use Rattle.rules.specs.Pec.{pec_distance, pec_file};
ghost use Rattle.rules.specs.Pes.{pes_file};
ghost use Rattle.rules.specs.Refusals.{place_outside, step_too_long};
ghost use Rattle.rules.specs.Promises.{Wrote};
ghost use Rattle.rules.specs.declared.Format.TheVariants.{Pes, Pec};
ghost use Rattle.laws.specs.Buffers.{Puts};
ghost use Rattle.geom.specs.Frames.{bounds_of};
ghost use Rattle.pec_threads.specs.Codes.{Coded};
ghost use Rattle.emit.specs.Answered.{FileAnswered};
ghost use Rattle.formats.specs.Matches.{Matches};
ghost use Rattle.pes_sections.specs.States.{measures};
ghost use Rattle.pes.specs.Lists.{Drawn, start_text};

use emit::{put_short, put_text, put_word};
use formats::{Matched, stream_bounds};
use geom::Bounds;
use pec::pec_len;
use pec_part::{part_len, write_pec};
use pec_threads::thread_codes;
use pes_blocks::{blocks_len, write_pes_blocks};
use pes_sections::{Sizes, measured};
use rules::{Format, Refusal, Written};
use write_refusals::check_list;

// A whole PEC file; n is how many bytes the stitches take.
fn put_pec_file(
    b: Bounds,
    name: &[u8],
    xs: &[i32],
    ys: &[i32],
    kinds: &[u8],
    threads: &[u8],
    n: usize,
    out: &mut [u8],
) -> Matched
    requires b_value { b ≡ bounds_of (commands xs.now ys.now kinds.now) }
    requires drawn { Drawn (commands xs.now ys.now kinds.now) kinds.now threads.now n }
    requires threads_in_bounds { length (pec_file name.now (commands xs.now ys.now kinds.now) (threads_of threads.now)) ≤ length out.old }
    ensures { Matches out 0 result (pec_file name.now (commands xs.now ys.now kinds.now) (threads_of threads.now))
        (pec_distance (threads_of threads.now)) }
{
    let part = put_text(out, 0, b"#PEC0001");
    write_pec(b, name, xs, ys, kinds, threads, n, out, part)
}

// The file, or refusal 11.
fn pec_accepted(
    name: &[u8],
    xs: &[i32],
    ys: &[i32],
    kinds: &[u8],
    threads: &[u8],
    out: &mut [u8],
) -> Result<Written, Refusal>
    requires { (length kinds.now ≤ 65535) × ((length threads.now ≤ 765) × (step_too_long Pec (commands xs.now ys.now kinds.now) ≡ false)) }
    ensures { FileAnswered Pec name.now (commands xs.now ys.now kinds.now) threads.now out.old out.new result }
{
    let n = pec_len(xs, ys, kinds);
    let long = 8 + part_len(xs, ys, kinds, threads, n);
    if out.len() < long {
        return Err(Refusal::BufferTooShort);
    }
    let b = stream_bounds(xs, ys, kinds);
    let w = put_pec_file(b, name, xs, ys, kinds, threads, n, out);
    Ok(Written {
        len: w.end,
        distance: w.distance,
    })
}

// Writes a list as a PEC file to the front of the buffer: its length, and how far off the threads are; or why it is refused, and the buffer
// as it was.
pub fn write_pec_file(
    name: &[u8],
    xs: &[i32],
    ys: &[i32],
    kinds: &[u8],
    threads: &[u8],
    out: &mut [u8],
) -> Result<Written, Refusal>
    ensures { Wrote (Some Pec) name.now xs.now ys.now kinds.now threads.now out.old out.new result }
{
    check_list(Format::Pec, xs, ys, kinds, threads)?;
    pec_accepted(name, xs, ys, kinds, threads, out)
}

// The signature, the start of the PEC part, 1, 1, 1, 0xFFFF, 0.
fn put_start(start: u32, out: &mut [u8]) -> usize
    requires { 22 ≤ length out.old }
    ensures { Puts out 0 result (start_text start) }
{
    let word = put_text(out, 0, b"#PES0001");
    let first = put_word(out, word, start);
    let second = put_short(out, first, 1);
    let third = put_short(out, second, 1);
    let fourth = put_short(out, third, 1);
    let fifth = put_short(out, fourth, 0xFFFF);
    put_short(out, fifth, 0)
}

// A whole PES file; z holds the sizes of its sections, and n is how many bytes the stitches take.
fn put_pes_file(
    b: Bounds,
    name: &[u8],
    xs: &[i32],
    ys: &[i32],
    kinds: &[u8],
    codes: &[u8; 256],
    threads: &[u8],
    z: Sizes,
    n: usize,
    out: &mut [u8],
) -> Matched
    requires b_value { b ≡ bounds_of (commands xs.now ys.now kinds.now) }
    requires coded { Coded (threads_of threads.now) codes.now }
    requires drawn { Drawn (commands xs.now ys.now kinds.now) kinds.now threads.now n }
    requires kinds_value { place_outside (commands xs.now ys.now kinds.now) ≡ false }
    requires measures { measures (threads_of threads.now) (commands xs.now ys.now kinds.now) z }
    requires bytes_bound { (z.bytes ≤ 1048560) × (z.logged ≤ 65535) }
    requires threads_in_bounds { length (pes_file name.now (commands xs.now ys.now kinds.now) (threads_of threads.now)) ≤ length out.old }
    ensures { Matches out 0 result (pes_file name.now (commands xs.now ys.now kinds.now) (threads_of threads.now))
        (pec_distance (threads_of threads.now)) }
{
    let long = blocks_len(z);
    let blocks = put_start((22 + long) as u32, out);
    let part = write_pes_blocks(b, xs, ys, kinds, codes, threads, z, out, blocks);
    write_pec(b, name, xs, ys, kinds, threads, n, out, part)
}

// The file, or refusal 11.
fn pes_accepted(
    name: &[u8],
    xs: &[i32],
    ys: &[i32],
    kinds: &[u8],
    threads: &[u8],
    out: &mut [u8],
) -> Result<Written, Refusal>
    requires kinds_len_bound { (length kinds.now ≤ 65535) × ((length threads.now ≤ 765) × (step_too_long Pes (commands xs.now ys.now kinds.now) ≡ false)) }
    requires kinds_value { place_outside (commands xs.now ys.now kinds.now) ≡ false }
    ensures { FileAnswered Pes name.now (commands xs.now ys.now kinds.now) threads.now out.old out.new result }
{
    let codes = thread_codes(threads);
    let z = measured(&codes, threads, xs, ys, kinds);
    let n = pec_len(xs, ys, kinds);
    let long = 22 + blocks_len(z) + part_len(xs, ys, kinds, threads, n);
    if out.len() < long {
        return Err(Refusal::BufferTooShort);
    }
    let b = stream_bounds(xs, ys, kinds);
    let w = put_pes_file(b, name, xs, ys, kinds, &codes, threads, z, n, out);
    Ok(Written {
        len: w.end,
        distance: w.distance,
    })
}

// Writes a list as a PES file to the front of the buffer: its length, and how far off the threads are in its PEC part; or why it is
// refused, and the buffer as it was.
pub fn pes_from_stream(
    name: &[u8],
    xs: &[i32],
    ys: &[i32],
    kinds: &[u8],
    threads: &[u8],
    out: &mut [u8],
) -> Result<Written, Refusal>
    ensures { Wrote (Some Pes) name.now xs.now ys.now kinds.now threads.now out.old out.new result }
{
    check_list(Format::Pes, xs, ys, kinds, threads)?;
    pes_accepted(name, xs, ys, kinds, threads, out)
}

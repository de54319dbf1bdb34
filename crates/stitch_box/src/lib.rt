// The calls of the box. What each promises is a record of specs/Promises.antt of crate rules, for every input.
#![tactic(auto)]

ghost use Rattle.std.specs.Prelude.{◌≡◌, ◌≤◌, min, Some};
ghost use Rattle.rules.specs.Files.{label_told};
ghost use Rattle.rules.specs.Hoop.{fits_told};
ghost use Rattle.rules.specs.Jobs.{job_name_told};
ghost use Rattle.rules.specs.Promises.{Wrote, bound_of, bound_told, ReadOf, ImportedOf, Exported};
ghost use Rattle.rules.specs.Refusals.{extension_of};
ghost use Rattle.stitch_box.specs.Back.{ReadBackOf, WritesAndReads};

use dst::dst_from_stream;
use exp::write_exp;
use formats::extension_of;
use jef::write_jef;
use pes::{pes_from_stream, write_pec_file};
use rules::{
    Counts, DST_HEADER, Format, JobCounts, MOST_CHANGES, MOST_COMMANDS, MOST_THREADS, Refusal,
    RoundTripRefusal, Written,
};
use vp3::write_vp3;

// `write` in a format that is known. The order of the arms is for speed: the compiler puts all writers into this function.
// Kept as a match: six arms, whose order is for speed.
pub fn write_stitch_file(
    f: Format,
    name: &[u8],
    xs: &[i32],
    ys: &[i32],
    kinds: &[u8],
    threads: &[u8],
    out: &mut [u8],
) -> Result<Written, Refusal>
    ensures { Wrote (Some f) name.now xs.now ys.now kinds.now threads.now out.old out.new result }
{
    match f {
        Format::Dst => dst_from_stream(name, xs, ys, kinds, threads, out),
        Format::Exp => write_exp(xs, ys, kinds, threads, out),
        Format::Jef => write_jef(xs, ys, kinds, threads, out),
        Format::Pec => write_pec_file(name, xs, ys, kinds, threads, out),
        Format::Pes => pes_from_stream(name, xs, ys, kinds, threads, out),
        Format::Vp3 => write_vp3(xs, ys, kinds, threads, out),
    }
}

// Writes a list as the file that an extension names, to the front of the buffer: the file's length, and cells behind it stay; and the largest
// distance between a thread and the chart's own colour of its entry in PES, PEC and JEF, else 0. Or why the list is refused, and the buffer
// as it was.
pub fn write(
    ext: &[u8],
    name: &[u8],
    xs: &[i32],
    ys: &[i32],
    kinds: &[u8],
    threads: &[u8],
    out: &mut [u8],
) -> Result<Written, Refusal>
    ensures { Wrote (extension_of ext.now) name.now xs.now ys.now kinds.now threads.now out.old out.new result }
{
    let Some(f) = extension_of(ext) else {
        return Err(Refusal::UnknownExtension);
    };
    write_stitch_file(f, name, xs, ys, kinds, threads, out)
}

fn at_most(n: usize, most: usize) -> usize
    ensures { result ≡ min n most }
{
    if n < most {
        return n;
    }
    most
}

fn bound_of(f: Format, n: usize, t: usize) -> usize
    requires { (n ≤ 65535) × (t ≤ 255) }
    ensures { result ≡ bound_of f n t }
{
    let pictures = 228 * at_most(n, MOST_CHANGES);
    match f {
        Format::Pes => 1094 + 26 * n + pictures,
        Format::Pec => 992 + 6 * n + pictures,
        Format::Dst => DST_HEADER + 9 * n,
        Format::Exp => 4 * n,
        Format::Jef => 124 + 4 * n + 8 * t,
        Format::Vp3 => 283 + 8 * n + 57 * at_most(n, MOST_CHANGES),
    }
}

// Cells that hold the file of any list of so many commands and threads that `write` takes under an extension; 0 under an unknown one.
// Longer lists and more threads are refused, and count as the most that are taken.
// Kept as a number under an unknown extension: the C interface, and `bound_told` says 0.
pub fn write_bound(ext: &[u8], commands: usize, threads: usize) -> usize
    ensures { result ≡ bound_told (extension_of ext.now) commands threads }
{
    let Some(f) = extension_of(ext) else {
        return 0;
    };
    bound_of(
        f,
        at_most(commands, MOST_COMMANDS),
        at_most(threads, MOST_THREADS),
    )
}

// Reads a file by its extension into three buffers: counts, and cells behind the answers stay; or why it is refused, and the buffers as
// they were.
pub fn read(
    ext: &[u8],
    file: &[u8],
    places: &mut [i32],
    runs: &mut [u32],
    blocks: &mut [u32],
) -> Result<Counts, Refusal>
    ensures { ReadOf (extension_of ext.now) file.now places.old runs.old blocks.old places.new runs.new blocks.new result }
{
    read::read(ext, file, places, runs, blocks)
}

// The label of a file, as a part of it: empty for EXP and JEF, and under every refusal of reading but 11.
pub fn label<'a>(ext: &[u8], file: &'a [u8]) -> &'a [u8]
    ensures { result.now ≡ label_told (extension_of ext.now) file.now }
{
    read_refusals::label(ext, file)
}

// Whether every place of every run of a file has x from left to right and y from top to bottom, edges included, without a buffer; or why
// the file is refused, by every refusal of reading but 11. A file without runs is a yes.
pub fn fits(
    ext: &[u8],
    file: &[u8],
    left: i32,
    right: i32,
    top: i32,
    bottom: i32,
) -> Result<bool, Refusal>
    ensures { result ≡ fits_told (extension_of ext.now) file.now (record { left = left; right = right; top = top; bottom = bottom }) }
{
    hoop::fits(ext, file, left, right, top, bottom)
}

// The read of a file that has been written with n bytes.
fn read_back(
    n: usize,
    ext: &[u8],
    file: &[u8],
    places: &mut [i32],
    runs: &mut [u32],
    blocks: &mut [u32],
) -> Result<(usize, Counts), RoundTripRefusal>
    ensures { ReadBackOf (extension_of ext.now) n file.now places.old runs.old blocks.old places.new runs.new blocks.new result }
{
    let told = read(ext, file, places, runs, blocks);
    match told {
        Ok(c) => Ok((n, c)),
        Err(why) => Err(RoundTripRefusal::NotRead(n, why)),
    }
}

// Writes a list, and reads the file back under the same extension. A list that is not written changes nothing; a file that is not read
// stands, and the three answer buffers are as they were. For a list that is accepted, and buffers long enough, neither refuses, and the
// sewing read is the list's own.
pub fn write_and_read(
    ext: &[u8],
    name: &[u8],
    xs: &[i32],
    ys: &[i32],
    kinds: &[u8],
    threads: &[u8],
    file: &mut [u8],
    places: &mut [i32],
    runs: &mut [u32],
    blocks: &mut [u32],
) -> Result<(usize, Counts), RoundTripRefusal>
    ensures { WritesAndReads (extension_of ext.now) name.now xs.now ys.now kinds.now threads.now file places runs blocks result }
{
    let written = write(ext, name, xs, ys, kinds, threads, file);
    match written {
        Ok(Written { len: n, .. }) => read_back(n, ext, &file[..n], places, runs, blocks),
        Err(why) => Err(RoundTripRefusal::NotWritten(why)),
    }
}

// Imports a job into four buffers: how much it holds, and cells behind the answers stay; or why it is refused, and the buffers as they
// were.
pub fn import_job(
    job: &[u8],
    xs: &mut [i32],
    ys: &mut [i32],
    kinds: &mut [u8],
    threads: &mut [u8],
) -> Result<JobCounts, Refusal>
    ensures { ImportedOf job.now xs.old ys.old kinds.old threads.old xs.new ys.new kinds.new threads.new result }
{
    import_job::import_job(job, xs, ys, kinds, threads)
}

// The name of a job, as a part of it: empty under every refusal of importing but 11.
pub fn job_name(job: &[u8]) -> &[u8]
    ensures { result.now ≡ job_name_told job.now }
{
    import_job::job_name(job)
}

// Exports a list and its threads as a job with a name, to the front of the buffer: the job's length, and cells behind it stay; or why it is
// refused, and the buffer as it was.
pub fn export_job(
    name: &[u8],
    xs: &[i32],
    ys: &[i32],
    kinds: &[u8],
    threads: &[u8],
    out: &mut [u8],
) -> Result<usize, Refusal>
    ensures { Exported name.now xs.now ys.now kinds.now threads.now out.old out.new result }
{
    export_job::export_job(name, xs, ys, kinds, threads, out)
}

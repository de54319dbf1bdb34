// The C interface: numbers and slices only, each slice as a pointer and a length. Single numbers go out through references.
#![tactic(auto)]

ghost use Rattle.std.specs.Prelude.{◌≡◌};
ghost use Rattle.rules.specs.Files.{read_counts, write_length, write_distance};
ghost use Rattle.rules.specs.Hoop.{fits_bit};
ghost use Rattle.rules.specs.Jobs.{import_counts, export_length};
ghost use Rattle.rules.specs.Promises.{WroteNumbers, bound_told, LabelNumbers, JobNameNumbers, ExportedNumbers};
ghost use Rattle.rules.specs.Refusals.{extension_of, answer_number};
ghost use Rattle.stitch_box_c.specs.Exports.{label_start, label_length, ReadsNumbers, WroteCmdsNumbers, FitsByNumbers, ImportsNumbers};

use read_header::Span;
use rules::{Cmd, Counts, JobCounts, Refusal, Written};
use write_refusals::number;

// The four counts of an answer, 0 under a refusal.
fn counts_of(answer: Result<Counts, Refusal>) -> Counts
    ensures { result ≡ read_counts answer }
{
    match answer {
        Ok(c) => c,
        Err(_) => Counts {
            points: 0,
            runs: 0,
            blocks: 0,
            cuts: 0,
        },
    }
}

// The number of an answer, 0 without a refusal.
#[tactic(auto, unfolding(rules::specs::Refusals::answer_number))]
fn answer_number<T: Copy>(answer: Result<T, Refusal>) -> u32
    ensures { result ≡ answer_number answer }
{
    match answer {
        Ok(_) => 0,
        Err(why) => number(why),
    }
}

// `read`; the counts become 0 under a refusal.
#[unsafe(no_mangle)]
pub extern "C" fn stitch_box_read(
    ext: &[u8],
    file: &[u8],
    places: &mut [i32],
    runs: &mut [u32],
    blocks: &mut [u32],
    point_count: &mut u32,
    run_count: &mut u32,
    block_count: &mut u32,
    cut_count: &mut u32,
) -> u32
    ensures { ReadsNumbers (extension_of ext.now) file.now places runs blocks result point_count run_count block_count cut_count }
{
    let answer = stitch_box::read(ext, file, places, runs, blocks);
    let c = counts_of(answer);
    *point_count = c.points;
    *run_count = c.runs;
    *block_count = c.blocks;
    *cut_count = c.cuts;
    answer_number(answer)
}

// The number of an answer, the label's place being put: its start and its length, or the refusal's number and zeros.
#[tactic(auto, unfolding(rules::specs::Refusals::answer_number))]
fn put_label(answer: Result<Span, Refusal>, start: &mut u64, len: &mut u64) -> u32
    ensures { (result ≡ answer_number answer) × (start.new ≡ label_start answer) × (len.new ≡ label_length answer) }
{
    match answer {
        Ok(p) => {
            *start = p.start as u64;
            *len = p.len as u64;
            0
        }
        Err(why) => {
            *start = 0;
            *len = 0;
            number(why)
        }
    }
}

// `label`, as a place in the file: where it starts and its length, both 0 under a refusal.
#[unsafe(no_mangle)]
pub extern "C" fn stitch_box_label(
    ext: &[u8],
    file: &[u8],
    start: &mut u64,
    length: &mut u64,
) -> u32
    ensures { LabelNumbers (extension_of ext.now) file.now result start.new length.new }
{
    let answer = read_refusals::label_answer(ext, file);
    put_label(answer, start, length)
}

// The number of an answer, 1 being put for yes: 0 and 1 or 0, or the refusal's number and 0.
#[tactic(auto, unfolding(rules::specs::Refusals::answer_number, rules::specs::Hoop::fits_bit))]
fn put_fits(answer: Result<bool, Refusal>, yes: &mut u32) -> u32
    ensures { (result ≡ answer_number answer) × (yes.new ≡ fits_bit answer) }
{
    match answer {
        Ok(true) => {
            *yes = 1;
            0
        }
        Ok(false) => {
            *yes = 0;
            0
        }
        Err(why) => {
            *yes = 0;
            number(why)
        }
    }
}

// `fits`; the answer is 1 for yes, 0 for no and under a refusal.
#[unsafe(no_mangle)]
pub extern "C" fn stitch_box_fits(
    ext: &[u8],
    file: &[u8],
    left: i32,
    right: i32,
    top: i32,
    bottom: i32,
    answer: &mut u32,
) -> u32
    ensures { FitsByNumbers (extension_of ext.now) file.now (record { left = left; right = right; top = top; bottom = bottom }) result answer }
{
    let told = stitch_box::fits(ext, file, left, right, top, bottom);
    put_fits(told, answer)
}

// The number of an answer, its length and distance being put: 0 and these, or the refusal's number and zeros.
fn put_written(answer: Result<Written, Refusal>, length: &mut u64, distance: &mut u32) -> u32
    ensures { (result ≡ answer_number answer) × (length.new ≡ write_length answer) × (distance.new ≡ write_distance answer) }
{
    match answer {
        Ok(
            Written {
                len: n,
                distance: far,
            },
        ) => {
            *length = n as u64;
            *distance = far;
            0
        }
        Err(why) => {
            *length = 0;
            *distance = 0;
            number(why)
        }
    }
}

// `write`; the length of the file and the distance become 0 under a refusal.
#[unsafe(no_mangle)]
pub extern "C" fn stitch_box_write(
    ext: &[u8],
    name: &[u8],
    xs: &[i32],
    ys: &[i32],
    kinds: &[u8],
    threads: &[u8],
    out: &mut [u8],
    length: &mut u64,
    distance: &mut u32,
) -> u32
    ensures { WroteNumbers (extension_of ext.now) name.now xs.now ys.now kinds.now threads.now
        out.old out.new result length.new distance.new }
{
    let answer = stitch_box::write(ext, name, xs, ys, kinds, threads, out);
    put_written(answer, length, distance)
}

// `write_cmds`; the length of the file and the distance become 0 under a refusal.
#[unsafe(no_mangle)]
pub extern "C" fn stitch_box_write_cmds(
    ext: &[u8],
    name: &[u8],
    cmds: &[Cmd],
    threads: &[u8],
    out: &mut [u8],
    length: &mut u64,
    distance: &mut u32,
) -> u32
    ensures { WroteCmdsNumbers (extension_of ext.now) name.now cmds.now threads.now out.old out.new result
        length.new distance.new }
{
    let answer = stitch_box_cmds::write_cmds(ext, name, cmds, threads, out);
    put_written(answer, length, distance)
}

// `write_bound`.
#[unsafe(no_mangle)]
pub extern "C" fn stitch_box_write_bound(ext: &[u8], commands: usize, threads: usize) -> usize
    ensures { result ≡ bound_told (extension_of ext.now) commands threads }
{
    stitch_box::write_bound(ext, commands, threads)
}

// The two counts of an import, 0 under a refusal.
fn job_counts(answer: Result<JobCounts, Refusal>) -> JobCounts
    ensures { result ≡ import_counts answer }
{
    match answer {
        Ok(n) => n,
        Err(_) => JobCounts {
            commands: 0,
            thread_bytes: 0,
        },
    }
}

// `import_job`; the counts become 0 under a refusal.
#[unsafe(no_mangle)]
pub extern "C" fn stitch_box_import_job(
    job: &[u8],
    xs: &mut [i32],
    ys: &mut [i32],
    kinds: &mut [u8],
    threads: &mut [u8],
    command_count: &mut u32,
    thread_bytes: &mut u32,
) -> u32
    ensures { ImportsNumbers job.now xs ys kinds threads result command_count thread_bytes }
{
    let answer = stitch_box::import_job(job, xs, ys, kinds, threads);
    let n = job_counts(answer);
    *command_count = n.commands;
    *thread_bytes = n.thread_bytes;
    answer_number(answer)
}

// `job_name`, as a place in the job: where it starts and its length, both 0 under a refusal.
#[unsafe(no_mangle)]
pub extern "C" fn stitch_box_job_name(job: &[u8], start: &mut u64, length: &mut u64) -> u32
    ensures { JobNameNumbers job.now result start.new length.new }
{
    let answer = import_job::job_name_answer(job);
    put_label(answer, start, length)
}

// The number of an export, its length being put: 0 and the length, or the refusal's number and 0.
fn put_exported(answer: Result<usize, Refusal>, size: &mut u64) -> u32
    ensures { (result ≡ answer_number answer) × (size.new ≡ export_length answer) }
{
    match answer {
        Ok(n) => {
            *size = n as u64;
            0
        }
        Err(why) => {
            *size = 0;
            number(why)
        }
    }
}

// `export_job`; the length of the job becomes 0 under a refusal.
#[unsafe(no_mangle)]
pub extern "C" fn stitch_box_export_job(
    name: &[u8],
    xs: &[i32],
    ys: &[i32],
    kinds: &[u8],
    threads: &[u8],
    out: &mut [u8],
    length: &mut u64,
) -> u32
    ensures { ExportedNumbers name.now xs.now ys.now kinds.now threads.now out.old out.new result length.new }
{
    let answer = stitch_box::export_job(name, xs, ys, kinds, threads, out);
    put_exported(answer, length)
}

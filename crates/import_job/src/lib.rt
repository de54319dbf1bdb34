// The import of a job: a first pass over its fields finds the first fault, or what the answers hold; a second one fills the buffers.
#![tactic(auto)]

pub mod fill;

ghost use Rattle.std.specs.Prelude.{◌≡◌, false, ◌+◌, ◌≤◌, ◌<◌, length, Ok};
ghost use Rattle.rules.specs.Jobs.{job_fields, fault_of, job_verdict, job_name_told};
ghost use Rattle.rules.specs.Promises.{ImportedOf};
ghost use Rattle.read_job_tally.specs.Tallies.{Spare};
ghost use Rattle.import_job.specs.Walks.{content_walk, Stands, Walks, end_check, Checks, room_for, NameAt, NameRead};

use crate::fill::fill_job;
use read_header::{Span, part};
use read_job_fields::field_at;
use read_job_tally::{Tally, check_tally, none, with_rows};
use rules::{JobCounts, LONGEST_FILE, Refusal};

// What has been read of a job: the tag of the field before, 0 at the front, where the next field begins, what the commands came to, and the
// bytes of threads.
#[derive(Clone, Copy)]
struct Walker {
    before: u8,
    at: usize,
    t: Tally,
    thread_bytes: usize,
}

// The content of a field, with the tag given, that ends at `end`.
fn check_content(w: Walker, tag: u8, content: &[u8], end: usize) -> Result<Walker, Refusal>
    requires unknown_value { (w.t.unknown ≡ false) × Spare w.t (length content.now) }
    requires content_bound { w.thread_bytes + length content.now ≤ 4294967295 }
    ensures { result ≡ content_walk w tag content.now end }
{
    let w = Walker {
        before: tag,
        at: end,
        ..w
    };
    match tag {
        3 => {
            let t = with_rows(w.t, content);
            if t.unknown {
                return Err(Refusal::BadTag);
            }
            Ok(Walker { t, ..w })
        }
        2 => Ok(Walker {
            thread_bytes: w.thread_bytes + content.len(),
            ..w
        }),
        _ => Ok(w),
    }
}

// The field at a walker's place.
fn check_field(job: &[u8], w: Walker) -> Result<Walker, Refusal>
    requires { Stands job.now w × (w.at < length job.now) }
    ensures { Walks job.now w result }
{
    let f = field_at(job, w.at, w.before)?;
    check_content(w, f.tag, &job[f.start..f.end], f.end)
}

// The end of a job: 13 where it has no name, then 6 to 9.
fn check_end(w: Walker) -> Result<JobCounts, Refusal>
    requires { (w.t.unknown ≡ false) × (w.thread_bytes ≤ 4294967295) }
    ensures { result ≡ end_check w }
{
    if w.before == 0 {
        return Err(Refusal::BadTag);
    }
    check_tally(w.t, w.thread_bytes)?;
    Ok(JobCounts {
        commands: w.t.commands,
        thread_bytes: w.thread_bytes as u32,
    })
}

// Refusals 2, 13 and 14 in order of place, and 6 to 9; how much the job holds if there is none of them.
pub fn check_job(job: &[u8]) -> Result<JobCounts, Refusal>
    ensures { Checks job.now result }
{
    if LONGEST_FILE < job.len() {
        return Err(Refusal::FileTooLong);
    }
    let mut w = Walker {
        before: 0,
        at: 0,
        t: none(),
        thread_bytes: 0,
    };
    // Kept as while: each turn goes on by its field's own length.
    while w.at < job.len() {
        w = check_field(job, w)?;
    }
    check_end(w)
}

// Whether so many commands and bytes of threads fit four buffers of these lengths.
fn is_room(n: JobCounts, xs: usize, ys: usize, kinds: usize, threads: usize) -> bool
    ensures { result ≡ room_for n xs ys kinds threads }
{
    let commands = n.commands as usize;
    commands <= xs && commands <= ys && commands <= kinds && n.thread_bytes as usize <= threads
}

// Imports a job into four buffers: how much it holds, and cells behind the answers stay; or why it is refused, and the buffers as they
// were.
pub fn import_job(
    job: &[u8],
    xs: &mut [i32],
    ys: &mut [i32],
    kinds: &mut [u8],
    threads: &mut [u8],
) -> Result<JobCounts, Refusal>
    ensures { ImportedOf job.now xs.old ys.old kinds.old threads.old xs.new ys.new kinds.new threads.new result }
{
    let n = check_job(job)?;
    if !is_room(n, xs.len(), ys.len(), kinds.len(), threads.len()) {
        return Err(Refusal::BufferTooShort);
    }
    fill_job(job, xs, ys, kinds, threads);
    Ok(n)
}

// Where the name of a job without fault stands: it is the content of the first field.
fn name_at(job: &[u8]) -> Span
    requires { fault_of (job_fields job.now) ≡ Ok tt }
    ensures { NameAt job.now result }
{
    let f = field_at(job, 0, 0).unwrap();
    Span {
        start: f.start,
        len: f.end - f.start,
    }
}

// Where the name of a job stands, or why it is refused: every refusal of importing but 11.
pub fn job_name_answer(job: &[u8]) -> Result<Span, Refusal>
    ensures { NameRead job.now (job_verdict job.now) result }
{
    check_job(job)?;
    Ok(name_at(job))
}

// The name of a job, as a part of it: empty under every refusal of importing but 11.
pub fn job_name(job: &[u8]) -> &[u8]
    ensures { result.now ≡ job_name_told job.now }
{
    match job_name_answer(job) {
        Ok(p) => part(job, p.start, p.len),
        Err(_) => part(job, 0, 0),
    }
}

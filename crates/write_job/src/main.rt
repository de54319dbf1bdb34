// write_job JOB OUT: writes the job as the machine's file that OUT's extension asks for. An old OUT is replaced once the new file is
// whole. What is refused or fails is told on standard error.
#![tactic(auto)]

ghost use Rattle.std.specs.Prelude.{◌≤◌, IfSome};
ghost use Rattle.command_line.specs.Files.{IsPrefixLen};

use command_line::{argument, extension, is_given, read_file, refused, replace_file, usage};
use formats::extension_of;
use rules::{Refusal, Written};
use std::random::RandomSource;
use std::rt::{Env, Files};
use stitch_box::{import_job, job_name};

// A count as a number of cells that there are. No answer of a call is cut by this.
fn at_most(n: usize, cells: usize) -> usize
    ensures { result ≤ cells }
{
    n.min(cells)
}

// Writes a list as OUT, by way of a buffer.
fn write<R: Files + RandomSource>(
    rt: &R,
    err: &impl Print,
    out: &[u8],
    name: &[u8],
    xs: &[i32],
    ys: &[i32],
    kinds: &[u8],
    threads: &[u8],
    file: &mut [u8],
) {
    match stitch_box::write(extension(out), name, xs, ys, kinds, threads, file) {
        Ok(Written { len: n, .. }) => {
            let end = at_most(n, file.len());
            let _ = replace_file(rt, err, out, &file[..end]);
        }
        Err(why) => refused(err, why),
    }
}

// Imports a job and writes it as OUT. The buffers hold any list that is accepted.
fn convert<R: Files + RandomSource>(
    rt: &R,
    err: &impl Print,
    job: &[u8],
    out: &[u8],
    file: &mut [u8],
) {
    let mut xs = [0i32; 65535];
    let mut ys = [0i32; 65535];
    let mut kinds = [0u8; 65535];
    let mut threads = [0u8; 765];
    match import_job(job, &mut xs, &mut ys, &mut kinds, &mut threads) {
        Ok(c) => {
            let n = at_most(c.commands as usize, 65535);
            let t = at_most(c.thread_bytes as usize, 765);
            write(
                rt,
                err,
                out,
                job_name(job),
                &xs[..n],
                &ys[..n],
                &kinds[..n],
                &threads[..t],
                file,
            );
        }
        Err(why) => refused(err, why),
    }
}

fn read_and_convert<R: Files + RandomSource>(
    rt: &R,
    err: &impl Print,
    job: &[u8],
    out: &[u8],
    bytes: &mut [u8],
    file: &mut [u8],
) {
    let Ok(n) = read_file(rt, err, job, bytes) else {
        return;
    };
    convert(rt, err, &bytes[..n], out, file);
}

// The prover takes arrays as long as these as slices only through a reference.
fn lend<R: Files + RandomSource>(
    rt: &R,
    err: &impl Print,
    job: &[u8],
    out: &[u8],
    bytes: &mut [u8; 2097153],
    file: &mut [u8; 1762916],
) {
    read_and_convert(rt, err, job, out, bytes, file);
}

// The buffer of a job has a byte more than a job may have, so that one that is too long is told; that of a file holds any.
fn run<R: Files + RandomSource>(rt: &R, err: &impl Print, job: &[u8], out: &[u8]) {
    let mut bytes = [0u8; 2097153];
    let mut file = [0u8; 1762916];
    lend(rt, err, job, out, &mut bytes, &mut file);
}

// The extension is asked before the job is opened.
fn write_job<R: Files + RandomSource>(rt: &R, err: &impl Print, job: &[u8], out: &[u8]) {
    if extension_of(extension(out)).is_none() {
        refused(err, Refusal::UnknownExtension);
        return;
    }
    run(rt, err, job, out);
}

// The lengths of the two names, if these are all arguments.
fn arguments(rt: &impl Env, job: &mut [u8], out: &mut [u8]) -> Option<(usize, usize)>
    ensures { IfSome result (λ a. IsPrefixLen a.0 job.new × IsPrefixLen a.1 out.new) }
{
    let n = argument(rt, 1, job)?;
    let m = argument(rt, 2, out)?;
    if is_given(rt, 3) {
        return None;
    }
    Some((n, m))
}

fn main(rt: HostRuntime) {
    let err = rt.stderr();
    let mut job = [0u8; 4096];
    let mut out = [0u8; 4096];
    let Some((n, m)) = arguments(&rt, &mut job, &mut out) else {
        usage(&err, b"write_job JOB OUT");
        return;
    };
    write_job(&rt, &err, &job[..n], &out[..m]);
}

// The export of a job: the name, a field for each thread, and the commands, 1,000 to a field.
#![tactic(auto)]

ghost use Rattle.std.specs.Prelude.{◌≡◌, ◌+◌, ◌-◌, ◌*◌, ◌/◌, ◌≤◌, min, nat_abs, length};
ghost use Rattle.rules.specs.Lists.{commands};
ghost use Rattle.rules.specs.Jobs.{field_of, row_of_cmd, thread_fields, command_fields, job_of, export_answer};
ghost use Rattle.rules.specs.Promises.{Exported};
ghost use Rattle.laws.specs.Buffers.{Puts};
ghost use Rattle.emit.specs.Answered.{Answered};
ghost use Rattle.export_job.specs.Lists.{Known, field_between, job_length};

use emit::{low16, put, put_short, put_text};
use formats::list_len;
use rules::{FIELD_COMMANDS, LONGEST_NAME, Refusal};
use write_refusals::check_commands;

// A field of any content that two bytes count.
fn put_field(tag: u8, content: &[u8], out: &mut [u8], at: usize) -> usize
    requires { at + (3 + length content.now) ≤ length out.old }
    ensures { Puts out at result (field_of tag content.now) }
{
    let len = put(out, at, tag);
    let start = put_short(out, len, content.len());
    put_text(out, start, content)
}

// A field for each thread.
fn put_threads(threads: &[u8], out: &mut [u8], at: usize) -> usize
    requires { at + length (thread_fields threads.now) ≤ length out.old }
    ensures { Puts out at result (thread_fields threads.now) }
{
    let mut to = at;
    for thread in threads.chunks_exact(3) {
        to = put_field(2, thread, out, to);
    }
    to
}

// A command: kind, x and y.
fn put_row(kind: u8, x: i32, y: i32, out: &mut [u8], at: usize) -> usize
    requires x_bound { (nat_abs x ≤ 16000) × (nat_abs y ≤ 16000) }
    requires at_in_bounds { at + 5 ≤ length out.old }
    ensures { Puts out at result (row_of_cmd (record { x = x; y = y; kind = kind })) }
{
    let across = put(out, at, kind);
    let down = put_short(out, across, low16(x));
    put_short(out, down, low16(y))
}

// Commands i to before e in one field.
fn put_commands(
    xs: &[i32],
    ys: &[i32],
    kinds: &[u8],
    i: usize,
    e: usize,
    out: &mut [u8],
    at: usize,
) -> usize
    requires known { Known xs.now ys.now kinds.now }
    requires i_le_e { (i ≤ e) × ((e ≤ i + 1000) × (e ≤ length (commands xs.now ys.now kinds.now))) }
    requires i_in_bounds { at + (3 + 5 * (e - i)) ≤ length out.old }
    ensures { Puts out at result (field_between xs.now ys.now kinds.now i e) }
{
    let len = 5 * (e - i);
    let head = put(out, at, 3);
    let mut to = put_short(out, head, len);
    for k in i..e {
        to = put_row(kinds[k], xs[k], ys[k], out, to);
    }
    to
}

// Where the field ends that begins with command i of n.
fn field_end(i: usize, n: usize) -> usize
    requires { i ≤ n }
    ensures { result ≡ i + min 1000 (n - i) }
{
    i + FIELD_COMMANDS.min(n - i)
}

// All commands, 1,000 to a field.
fn put_list(xs: &[i32], ys: &[i32], kinds: &[u8], out: &mut [u8], at: usize) -> usize
    requires known { Known xs.now ys.now kinds.now }
    requires kinds_in_bounds { at + length (command_fields (commands xs.now ys.now kinds.now)) ≤ length out.old }
    ensures { Puts out at result (command_fields (commands xs.now ys.now kinds.now)) }
{
    let n = list_len(xs, ys, kinds);
    let mut to = at;
    let mut i = 0;
    // Kept as while: each turn goes on by a whole field.
    while i < n {
        let e = field_end(i, n);
        to = put_commands(xs, ys, kinds, i, e, out, to);
        i = e;
    }
    to
}

// The bytes of a job with a name of so many bytes, n commands and t bytes of threads.
fn job_len(name: usize, n: usize, t: usize) -> usize
    requires { (name ≤ 64) × ((n ≤ 65535) × (t / 3 ≤ 255)) }
    ensures { result ≡ job_length name n t }
{
    3 + name + 6 * (t / 3) + 5 * n + 3 * ((n + 999) / 1000)
}

// The job, or refusal 11.
fn export_accepted(
    name: &[u8],
    xs: &[i32],
    ys: &[i32],
    kinds: &[u8],
    threads: &[u8],
    out: &mut [u8],
) -> Result<usize, Refusal>
    requires { Known xs.now ys.now kinds.now × ((length name.now ≤ 64) × (length threads.now / 3 ≤ 255)) }
    ensures { Answered export_answer (job_of name.now (commands xs.now ys.now kinds.now) threads.now) out.old out.new result }
{
    let n = job_len(name.len(), list_len(xs, ys, kinds), threads.len());
    if out.len() < n {
        return Err(Refusal::BufferTooShort);
    }
    let first = put_field(1, name, out, 0);
    let second = put_threads(threads, out, first);
    let end = put_list(xs, ys, kinds, out, second);
    Ok(end)
}

// Exports a list and its threads as a job with a name, to the front of the buffer: the job's length, and cells behind it stay; or why it is
// refused, and the buffer as it was.
pub fn export_job(
    name: &[u8],
    xs: &[i32],
    ys: &[i32],
    kinds: &[u8],
    threads: &[u8],
    out: &mut [u8],
) -> Result<usize, Refusal>
    ensures { Exported name.now xs.now ys.now kinds.now threads.now out.old out.new result }
{
    if LONGEST_NAME < name.len() {
        return Err(Refusal::BadLength);
    }
    check_commands(xs, ys, kinds, threads)?;
    export_accepted(name, xs, ys, kinds, threads, out)
}

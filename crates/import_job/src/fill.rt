// The second pass over the fields of a job: commands and threads go into the buffers.
ghost use Rattle.std.specs.Prelude.{◌≡◌, ◌+◌, ◌≤◌, ◌<◌, length, Ok};
ghost use Rattle.rules.specs.Jobs.{rows_of, job_fields, fault_of};
ghost use Rattle.import_job.specs.Fills.{RowRoom, RowsPut, Ready, Fills, Fits, Filled};

use emit::put_text;
use read_job_fields::{field_at, i16le};

// The tag of the field before, 0 at the front, where the next field begins, and how much stands in the buffers.
#[derive(Clone, Copy)]
struct Filler {
    before: u8,
    at: usize,
    commands: usize,
    thread_bytes: usize,
}

// The commands of a field's content, from command `from` on: how many there are then.
fn fill_rows(bytes: &[u8], xs: &mut [i32], ys: &mut [i32], kinds: &mut [u8], from: usize) -> usize
    requires { RowRoom bytes.now from (length xs.old) (length ys.old) (length kinds.old) }
    ensures { RowsPut (rows_of bytes.now) from result xs.old xs.new ys.old ys.new kinds.old kinds.new }
{
    let n = bytes.len() / 5;
    for i in 0..n {
        let at = 5 * i;
        let x = i16le(bytes, at + 1);
        let y = i16le(bytes, at + 3);
        kinds[from + i] = bytes[at];
        xs[from + i] = x;
        ys[from + i] = y;
    }
    from + n
}

// The field at a filler's place.
fn fill_field(
    job: &[u8],
    f: Filler,
    xs: &mut [i32],
    ys: &mut [i32],
    kinds: &mut [u8],
    threads: &mut [u8],
) -> Filler
    requires { Ready job.now f (length xs.old) (length ys.old) (length kinds.old) (length threads.old) }
    ensures { Fills job.now f xs.old xs.new ys.old ys.new kinds.old kinds.new threads.old threads.new result }
{
    let field = field_at(job, f.at, f.before).unwrap();
    let content = &job[field.start..field.end];
    let f = Filler {
        before: field.tag,
        at: field.end,
        ..f
    };
    match field.tag {
        3 => Filler {
            commands: fill_rows(content, xs, ys, kinds, f.commands),
            ..f
        },
        2 => Filler {
            thread_bytes: put_text(threads, f.thread_bytes, content),
            ..f
        },
        _ => f,
    }
}

// All fields of a job without fault: the answers go to the front of the buffers.
pub fn fill_job(job: &[u8], xs: &mut [i32], ys: &mut [i32], kinds: &mut [u8], threads: &mut [u8])
    requires job_value { fault_of (job_fields job.now) ≡ Ok tt }
    requires fits { Fits job.now (length xs.old) (length ys.old) (length kinds.old) (length threads.old) }
    ensures { Filled job.now xs.old xs.new ys.old ys.new kinds.old kinds.new threads.old threads.new }
{
    let mut f = Filler {
        before: 0,
        at: 0,
        commands: 0,
        thread_bytes: 0,
    };
    // Kept as while: each turn goes on by its field's own length.
    while f.at < job.len() {
        f = fill_field(job, f, xs, ys, kinds, threads);
    }
}

// The write of a list that is passed as one slice of command records.
#![tactic(auto)]

ghost use Rattle.std.specs.Prelude.{◌≡◌, map, ◌≤◌, ltb, length, take, Some};
ghost use Rattle.rules.specs.Promises.{xs_of, ys_of, kinds_of, Wrote};
ghost use Rattle.rules.specs.Refusals.{extension_of};
ghost use Rattle.rules.specs.Vocabulary.{pick};
ghost use Rattle.stitch_box_cmds.specs.Records.{Unpacked, WroteFront};

use formats::extension_of;
use rules::{Cmd, Format, MOST_COMMANDS, Refusal, Written};
use stitch_box::write_stitch_file;

// How many of n records are unpacked: all, or none if they are more than a list may have.
fn fitting(n: usize) -> usize
    ensures { (result ≡ pick (ltb 65535 n) 0 n) × (result ≤ n) × (result ≤ 65535) }
{
    if MOST_COMMANDS < n {
        return 0;
    }
    n
}

// The numbers of the first n commands.
fn unpack(cmds: &[Cmd], n: usize, xs: &mut [i32], ys: &mut [i32], kinds: &mut [u8])
    requires { (n ≤ length cmds.now) × (n ≤ length xs.old) × (n ≤ length ys.old) × (n ≤ length kinds.old) }
    ensures { Unpacked (take n cmds.now) xs.old ys.old kinds.old xs.new ys.new kinds.new }
{
    for i in 0..n {
        let c = cmds[i];
        xs[i] = c.x;
        ys[i] = c.y;
        kinds[i] = c.kind;
    }
}

// The write of a list of n commands, the first m of which stand at the front of the three slices: 6 if these are not all.
fn write_front(
    f: Format,
    name: &[u8],
    n: usize,
    m: usize,
    xs: &[i32],
    ys: &[i32],
    kinds: &[u8],
    threads: &[u8],
    out: &mut [u8],
) -> Result<Written, Refusal>
    requires { (m ≤ length xs.now) × (m ≤ length ys.now) × (m ≤ length kinds.now) }
    ensures { WroteFront f name.now n m xs.now ys.now kinds.now threads.now out.old out.new result }
{
    if m < n {
        return Err(Refusal::BadList);
    }
    write_stitch_file(f, name, &xs[..m], &ys[..m], &kinds[..m], threads, out)
}

// `write_stitch_file` of a list of command records. They are unpacked into arrays of the call's own, 589,815 bytes of stack.
// Kept as three arrays: no heap, and every check goes over a column.
pub fn write_cmds_as(
    f: Format,
    name: &[u8],
    cmds: &[Cmd],
    threads: &[u8],
    out: &mut [u8],
) -> Result<Written, Refusal>
    ensures { Wrote (Some f) name.now (xs_of cmds.now) (ys_of cmds.now) (kinds_of cmds.now) threads.now
        out.old out.new result }
{
    let n = cmds.len();
    let m = fitting(n);
    let mut xs = [0i32; 65535];
    let mut ys = [0i32; 65535];
    let mut kinds = [0u8; 65535];
    unpack(cmds, m, &mut xs, &mut ys, &mut kinds);
    write_front(f, name, n, m, &xs, &ys, &kinds, threads, out)
}

// `write` of a list of command records.
pub fn write_cmds(
    ext: &[u8],
    name: &[u8],
    cmds: &[Cmd],
    threads: &[u8],
    out: &mut [u8],
) -> Result<Written, Refusal>
    ensures { Wrote (extension_of ext.now) name.now (xs_of cmds.now) (ys_of cmds.now) (kinds_of cmds.now) threads.now
        out.old out.new result }
{
    let Some(f) = extension_of(ext) else {
        return Err(Refusal::UnknownExtension);
    };
    write_cmds_as(f, name, cmds, threads, out)
}

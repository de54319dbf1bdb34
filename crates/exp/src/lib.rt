// EXP: the commands' bytes and nothing else.
// A port of src/formats/more.rs of zigzag, changed.
#![tactic(auto)]

ghost use Rattle.std.specs.Prelude.{◌≡◌, false, [], ◌≤◌, length, Some};
ghost use Rattle.rules.specs.Files.{write_answer};
ghost use Rattle.rules.specs.Lists.{commands};
ghost use Rattle.rules.specs.Exp.{exp_file};
ghost use Rattle.rules.specs.Refusals.{step_too_long};
ghost use Rattle.rules.specs.Promises.{Wrote};
ghost use Rattle.rules.specs.declared.Format.TheVariants.{Exp};
ghost use Rattle.emit.specs.Answered.{Answered};

use rules::{Format, Refusal, Written};
use stream::{put_stream, stream_len};
use stream_cmd::Stream;
use write_refusals::check_list;

// The file, or refusal 11.
fn write_accepted(xs: &[i32], ys: &[i32], kinds: &[u8], out: &mut [u8]) -> Result<Written, Refusal>
    requires { (length kinds.now ≤ 65535) × (step_too_long Exp (commands xs.now ys.now kinds.now) ≡ false) }
    ensures { Answered (write_answer 0) (exp_file (commands xs.now ys.now kinds.now)) out.old out.new result }
{
    let n = stream_len(Stream::Exp, xs, ys, kinds);
    if out.len() < n {
        return Err(Refusal::BufferTooShort);
    }
    Ok(Written {
        len: put_stream(Stream::Exp, xs, ys, kinds, out, 0),
        distance: 0,
    })
}

// Writes a list as an EXP file to the front of the buffer: its length; or why it is refused, and the buffer as it was.
pub fn write_exp(
    xs: &[i32],
    ys: &[i32],
    kinds: &[u8],
    threads: &[u8],
    out: &mut [u8],
) -> Result<Written, Refusal>
    ensures { Wrote (Some Exp) [] xs.now ys.now kinds.now threads.now out.old out.new result }
{
    check_list(Format::Exp, xs, ys, kinds, threads)?;
    write_accepted(xs, ys, kinds, out)
}

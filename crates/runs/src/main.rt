// Reads an extension, a newline and a file from standard input, and prints what the file sews.
#![tactic(auto)]

mod buffer;
mod show;

ghost use Rattle.std.specs.Prelude.{ℕ, ◌≤◌, ◌<◌, ◌≡◌, length, get_or};
ghost use Rattle.std.specs.Io.{ReadsAtMost};

use buffer::Buffer;
use formats::extension_of;
use rules::Refusal;
use std::io;
use std::io::Read;

// Where the first line ends: at its newline, or where the input ends.
fn line_end(input: &[u8]) -> usize
    ensures within { result ≤ length input.now }
    ensures before { (k : ℕ) → k < result → get_or input.now k 0 ≡ 10 → ⊥ }
    ensures found { result < length input.now → get_or input.now result 0 ≡ 10 }
{
    input
        .iter()
        .position(|b| *b == b'\n')
        .unwrap_or(input.len())
}

// Why a file past 65,536 bytes is refused: the extension is asked first.
fn too_long(ext: &[u8]) -> Refusal {
    let named = extension_of(ext);
    match named {
        Some(_) => Refusal::FileTooLong,
        None => Refusal::UnknownExtension,
    }
}

// Puts what a file sews, or why it is refused, into the buffer.
fn answer(out: &mut Buffer, ext: &[u8], file: &[u8]) -> usize
    ensures { result ≤ 65536 }
{
    if 65536 < file.len() {
        return show::refused(out, 0, too_long(ext));
    }
    let mut places = [0i32; 16384];
    let mut runs = [0u32; 16384];
    let mut blocks = [0u32; 16384];
    let told = read::read(ext, file, &mut places, &mut runs, &mut blocks);
    match told {
        Ok(c) => {
            let mut at = show::counts(out, 0, ext, c);
            at = show::label(out, at, read_refusals::label(ext, file));
            show::blocks(out, at, &places, &runs, &blocks, c.blocks)
        }
        Err(why) => show::refused(out, 0, why),
    }
}

// Input without a newline is all extension.
fn split(out: &mut Buffer, input: &[u8]) -> usize
    ensures { result ≤ 65536 }
{
    let end = line_end(input);
    if end == input.len() {
        return answer(out, input, &input[end..]);
    }
    let start = end + 1;
    answer(out, &input[..end], &input[start..])
}

// Reads to the front of a buffer, until it is full or the input ends.
fn read_full<R: Read>(input: &mut R, buf: &mut [u8]) -> io::Result<usize>
    ensures { ReadsAtMost result buf.new }
{
    let mut done = 0;
    // Kept as while: each turn goes on by as many bytes as were read.
    while done < buf.len() {
        let n = input.read(&mut buf[done..])?;
        if n == 0 {
            break;
        }
        done += n;
    }
    Ok(done)
}

// The input buffer holds three bytes of extension, a newline and one byte more than a file may have. Of
// more input the answer is known: a longer extension is no format's, or the file is too long.
fn main(rt: HostRuntime) -> io::Result<()> {
    let mut input = [0u8; 65541];
    let n = read_full(&mut rt.stdin(), &mut input)?;
    let mut out = Buffer {
        bytes: [0u8; 65536],
        to: rt.stdout(),
        told: Ok(()),
    };
    let at = split(&mut out, &input[..n]);
    buffer::flush(&mut out, at);
    out.told
}

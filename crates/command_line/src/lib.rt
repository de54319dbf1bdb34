// What the programs that go by file names share: arguments, numbers in them, the extension of a name, a file read whole, a file
// replaced, and what is said on standard error.
#![tactic(auto)]

mod files;
mod names;
mod numbers;
mod words;

ghost use Rattle.std.specs.Prelude.{IfSome};
ghost use Rattle.command_line.specs.Files.{IsPrefixLen};

pub use files::{read_file, replace_file};
pub use names::extension;
pub use numbers::number_in;
use std::env::FillError;
use std::rt::Env;
pub use words::{refused, usage};

// The error of a call that failed, which standard error has told.
#[derive(Clone, Copy, Debug, PartialEq, Eq)]
pub struct Told;

// The length of argument i, which is put to the front of a buffer; none if it is missing or longer than the buffer. The program's own
// name is argument 0.
pub fn argument(rt: &impl Env, i: usize, buf: &mut [u8]) -> Option<usize>
    ensures { IfSome result (λ n. IsPrefixLen n buf.new) }
{
    rt.arg(i, buf).ok()
}

// Whether there is an argument i.
pub fn is_given(rt: &impl Env, i: usize) -> bool {
    match rt.arg(i, &mut []) {
        Ok(_) => true,
        Err(FillError::TooLong) => true,
        Err(FillError::NotPresent) => false,
    }
}

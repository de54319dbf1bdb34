// What is said on standard error.
ghost use Rattle.std.specs.Prelude.{◌≤◌, length};

use super::Told;
use super::names::last;
use rules::Refusal;
use std::io;
use std::io::{Cursor, Write};

// What cannot be said is not told.
fn say(err: &impl Print, text: &[u8]) {
    let _ = err.write_all(text);
}

// One line: the refusal's number and what it means.
pub fn refused(err: &impl Print, why: Refusal) {
    let number = write_refusals::number(why);
    let _ = println!(err; "refused {number}: {why}");
}

// One line: how a program is called.
pub fn usage(err: &impl Print, line: &[u8]) {
    say(err, b"usage: ");
    say(err, line);
    say(err, b"\n");
}

// How many bytes a text has ahead of ` (os error N)`, with which std ends the system's own words.
fn words_len(text: &[u8]) -> usize
    ensures { result ≤ length text.now }
{
    match last(text, b'(') {
        Some(i) if 0 < i => i - 1,
        _ => text.len(),
    }
}

// A position as a number of bytes that there are.
fn at_most(n: u64, most: usize) -> usize
    ensures { result ≤ most }
{
    n.min(most as u64) as usize
}

// One line: a file's name and why a call on it failed.
pub fn failed(err: &impl Print, name: &[u8], why: io::Error) -> Told {
    let mut text = Cursor::new([0u8; 256]);
    let _ = write!(text, "{why}");
    let len = at_most(text.position(), 256);
    let bytes = text.into_inner();
    let n = words_len(&bytes[..len]);
    say(err, name);
    say(err, b": ");
    say(err, &bytes[..n]);
    say(err, b"\n");
    Told
}

// fits FILE LEFT RIGHT TOP BOTTOM: prints `yes` if every place of every run of the file has x from LEFT to RIGHT and y from TOP to BOTTOM,
// edges included, and else `no`. The numbers are tenths of a millimetre. What is refused or fails is told on standard error.
#![tactic(auto)]

ghost use Rattle.std.specs.Prelude.{IfSome};
ghost use Rattle.command_line.specs.Files.{IsPrefixLen};

use command_line::{argument, extension, is_given, number_in, read_file, refused, usage};
use formats::extension_of;
use rules::{Hoop, Refusal};
use std::io;
use std::rt::{Env, Files};

fn tell(out: &impl Print, err: &impl Print, answer: Result<bool, Refusal>) -> io::Result<()> {
    match answer {
        Ok(true) => println!(out; "yes"),
        Ok(false) => println!(out; "no"),
        Err(why) => {
            refused(err, why);
            Ok(())
        }
    }
}

fn read_and_tell<R: Files + Print>(
    rt: &R,
    err: &impl Print,
    name: &[u8],
    h: Hoop,
    bytes: &mut [u8],
) -> io::Result<()> {
    let Ok(n) = read_file(rt, err, name, bytes) else {
        return Ok(());
    };
    let answer = stitch_box::fits(
        extension(name),
        &bytes[..n],
        h.left,
        h.right,
        h.top,
        h.bottom,
    );
    tell(rt, err, answer)
}

// The prover takes an array as long as this as a slice only through a reference.
fn lend<R: Files + Print>(
    rt: &R,
    err: &impl Print,
    name: &[u8],
    h: Hoop,
    bytes: &mut [u8; 2097153],
) -> io::Result<()> {
    read_and_tell(rt, err, name, h, bytes)
}

// The buffer has a byte more than a file may have, so that one that is too long is told.
fn run<R: Files + Print>(rt: &R, err: &impl Print, name: &[u8], h: Hoop) -> io::Result<()> {
    let mut bytes = [0u8; 2097153];
    lend(rt, err, name, h, &mut bytes)
}

// The extension is asked before the file is opened.
fn fits<R: Files + Print>(rt: &R, err: &impl Print, name: &[u8], h: Hoop) -> io::Result<()> {
    if extension_of(extension(name)).is_none() {
        refused(err, Refusal::UnknownExtension);
        return Ok(());
    }
    run(rt, err, name, h)
}

// Argument i as a number.
fn number_at(rt: &impl Env, i: usize) -> Option<i32> {
    let mut text = [0u8; 4096];
    let n = argument(rt, i, &mut text)?;
    number_in(&text[..n])
}

// Arguments 2 to 5 as a hoop.
fn hoop_given(rt: &impl Env) -> Option<Hoop> {
    Some(Hoop {
        left: number_at(rt, 2)?,
        right: number_at(rt, 3)?,
        top: number_at(rt, 4)?,
        bottom: number_at(rt, 5)?,
    })
}

// The length of the file's name, argument 1, and the hoop, if these are all arguments.
fn arguments(rt: &impl Env, name: &mut [u8]) -> Option<(usize, Hoop)>
    ensures { IfSome result (λ a. IsPrefixLen a.0 name.new) }
{
    let n = argument(rt, 1, name)?;
    let h = hoop_given(rt)?;
    if is_given(rt, 6) {
        return None;
    }
    Some((n, h))
}

fn main(rt: HostRuntime) -> io::Result<()> {
    let err = rt.stderr();
    let mut name = [0u8; 4096];
    let Some((n, h)) = arguments(&rt, &mut name) else {
        usage(&err, b"fits FILE LEFT RIGHT TOP BOTTOM");
        return Ok(());
    };
    fits(&rt, &err, &name[..n], h)
}

// Files by name. Of a call that fails, standard error tells the name and why.
ghost use Rattle.std.specs.Prelude.{IfOk};
ghost use Rattle.command_line.specs.Files.{IsPrefixLen};

use super::Told;
use super::names::{new_name, path};
use super::words::failed;
use std::fs::{File, OpenFile, OpenOptions};
use std::io::{Read, Write};
use std::random::RandomSource;
use std::rt::Files;
use std::{fs, io};

// One read to the front of a buffer. It reads nothing only at the end of the file, or if there is no room.
fn read_some<F: Read>(
    file: &mut F,
    err: &impl Print,
    name: &[u8],
    buf: &mut [u8],
) -> Result<usize, Told>
    ensures { IfOk result (λ n. IsPrefixLen n buf.new) }
{
    file.read(buf).map_err(|why| failed(err, name, why))
}

fn read_all<F: Read>(
    file: &mut F,
    err: &impl Print,
    name: &[u8],
    buf: &mut [u8],
) -> Result<usize, Told>
    ensures { IfOk result (λ n. IsPrefixLen n buf.new) }
{
    let mut n = 0;
    // Kept as while: each turn goes on by as many bytes as were read.
    while n < buf.len() {
        let more = read_some(file, err, name, &mut buf[n..])?;
        if more == 0 {
            return Ok(n);
        }
        n += more;
    }
    Ok(n)
}

fn open<R: Files>(rt: &R, name: &[u8]) -> io::Result<R::File> {
    File::open(rt, path(name)?)
}

// Reads a file to the front of a buffer, until it ends or the buffer is full. So a buffer that is a byte longer than a file may be tells
// one that is too long.
pub fn read_file<R: Files>(
    rt: &R,
    err: &impl Print,
    name: &[u8],
    buf: &mut [u8],
) -> Result<usize, Told>
    ensures { IfOk result (λ n. IsPrefixLen n buf.new) }
{
    let mut file = open(rt, name).map_err(|why| failed(err, name, why))?;
    read_all(&mut file, err, name, buf)
}

// Writes all bytes to a new file, and waits until its device has them.
fn fill<F: Write + OpenFile>(file: &mut F, bytes: &[u8]) -> io::Result<()> {
    file.write_all(bytes)?;
    file.sync_all()
}

// A file that was not there before.
fn create<R: Files>(rt: &R, new: &str) -> io::Result<R::File> {
    OpenOptions::new()
        .write(true)
        .create_new(true)
        .open(rt, new)
}

// Makes a file under a new name and fills it. One that is not filled is removed.
fn make<R: Files>(rt: &R, new: &str, bytes: &[u8]) -> io::Result<()> {
    let mut file = create(rt, new)?;
    let filled = fill(&mut file, bytes);
    if filled.is_err() {
        let _ = fs::remove_file(rt, new);
    }
    filled
}

// Makes a file under a new name beside the one of a name, and then gives it that name.
fn replace<R: Files + RandomSource>(rt: &R, name: &[u8], bytes: &[u8]) -> io::Result<()> {
    let old = path(name)?;
    let mut room = [0u8; 4096];
    let n = new_name(rt, name, &mut room)?;
    let new = path(&room[..n])?;
    make(rt, new, bytes)?;
    let renamed = fs::rename(rt, new, old);
    if renamed.is_err() {
        let _ = fs::remove_file(rt, new);
    }
    renamed
}

// Makes a file of these bytes, or puts it in the place of the one that has the name: it is made under a new name in the same folder and
// then renamed. Where a call fails, an old file is as it was and the new one is removed.
pub fn replace_file<R: Files + RandomSource>(
    rt: &R,
    err: &impl Print,
    name: &[u8],
    bytes: &[u8],
) -> Result<(), Told> {
    replace(rt, name, bytes).map_err(|why| failed(err, name, why))
}

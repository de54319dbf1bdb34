// Parts of a file's name, and a name for a new file.
ghost use Rattle.std.specs.Prelude.{◌≡◌, ◌≤◌, ◌<◌, eqb, length, IfOk, IfSome, OnErr};
ghost use Rattle.rules.specs.Vocabulary.{last_where};
ghost use Rattle.command_line.specs.Files.{IsPrefixLen};
ghost use Rattle.command_line.specs.Names.{after_last_dot};

use std::io;
use std::io::ErrorKind;
use std::random::RandomSource;

// Where the last `b` stands.
pub fn last(s: &[u8], b: u8) -> Option<usize>
    ensures within { IfSome result (λ i. i < length s.now) }
    ensures is { result ≡ last_where (eqb b) s.now }
{
    for i in (0..s.len()).rev() {
        if s[i] == b {
            return Some(i);
        }
    }
    None
}

// What follows the last dot, as a part of the name; nothing if there is no dot.
pub fn extension(name: &[u8]) -> &[u8]
    ensures { result.now ≡ after_last_dot name.now }
{
    match last(name, b'.') {
        Some(i) => &name[i + 1..],
        None => &[],
    }
}

// Copies text to a buffer from a place on, as far as there is room, and answers the next place.
fn put(to: &mut [u8], at: usize, text: &[u8]) -> usize
    requires { at ≤ length to.old }
    ensures { IsPrefixLen result to.new }
{
    let n = text.len().min(to.len() - at);
    let end = at + n;
    to[at..end].copy_from_slice(&text[..n]);
    end
}

// A small letter for a random byte.
fn letter(b: u8) -> u8 {
    b'a' + b % 26
}

fn to_letters(bytes: &mut [u8]) {
    for b in bytes.iter_mut() {
        *b = letter(*b);
    }
}

// How many bytes the folder of a file has, with the slash that ends it.
fn folder_len(name: &[u8]) -> usize
    ensures { result ≤ length name.now }
{
    match last(name, b'/') {
        Some(i) => i + 1,
        None => 0,
    }
}

// Puts a name that no file should have into a buffer, and answers its length: the folder of a file, `part-` and 16 random letters. An
// error if the system gives no random bytes. A name that has no room fills the buffer.
pub fn new_name(rt: &impl RandomSource, beside: &[u8], to: &mut [u8]) -> io::Result<usize>
    ensures ok { IfOk result (λ n. IsPrefixLen n to.new) }
    ensures err { OnErr result (to.new ≡ to.old) }
{
    let mut random = [0u8; 16];
    rt.fill_bytes(&mut random)?;
    to_letters(&mut random);
    let mut n = put(to, 0, &beside[..folder_len(beside)]);
    n = put(to, n, b"part-");
    Ok(put(to, n, &random))
}

// A file's name as a path, which std has of UTF-8 only.
pub fn path(name: &[u8]) -> io::Result<&str> {
    std::str::from_utf8(name).map_err(|_| io::Error::new(ErrorKind::InvalidInput, "not UTF-8"))
}

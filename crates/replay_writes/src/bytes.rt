// Parts of a case.
ghost use Rattle.std.specs.Prelude.{◌<◌};

use read_header::part;
use replay::bytes::{byte, word};

// The name, behind the format and its length.
pub fn name(case: &[u8]) -> &[u8] {
    part(case, 2, byte(case, 1) as usize)
}

// The case from the count of commands on.
fn from_count(case: &[u8]) -> &[u8] {
    part(case, 2 + (byte(case, 1) as usize), 65536)
}

// How many commands there are.
pub fn list_len(case: &[u8]) -> usize
    ensures { result < 65536 }
{
    word(from_count(case), 0)
}

// The case from the first command on.
pub fn from_list(case: &[u8]) -> &[u8] {
    part(from_count(case), 2, 65536)
}

// The case from the count of threads on.
fn from_threads(case: &[u8]) -> &[u8] {
    part(from_list(case), 5 * list_len(case), 65536)
}

// Red, green and blue of each thread.
pub fn threads(case: &[u8]) -> &[u8] {
    let rest = from_threads(case);
    part(rest, 1, 3 * (byte(rest, 0) as usize))
}

// The case from the length of the file on. Where that is there, all before it is.
fn from_file(case: &[u8]) -> &[u8] {
    let rest = from_threads(case);
    part(rest, 1 + 3 * (byte(rest, 0) as usize), 65536)
}

pub fn is_whole(case: &[u8]) -> bool {
    let rest = from_file(case);
    2 <= rest.len()
}

// How long the file is.
pub fn file_len(case: &[u8]) -> usize
    ensures { result < 65536 }
{
    word(from_file(case), 0)
}

// The file, packed.
pub fn packed(case: &[u8]) -> &[u8] {
    part(from_file(case), 2, 65536)
}

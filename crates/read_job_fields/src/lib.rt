// The fields of a job: the tag, the length and the content of the one at a place, or why the job is refused there.
#![tactic(auto)]

ghost use Rattle.std.specs.Prelude.{◌≡◌, ◌+◌, ◌≤◌, ◌<◌, length, take, drop, get_or};
ghost use Rattle.rules.specs.Vocabulary.{signed, from_little};
ghost use Rattle.rules.specs.Jobs.{follows, length_allowed};
ghost use Rattle.read_job_fields.specs.Fields.{tag_by, length_by, FieldRead};

use read_records::bytes::signed16;
use rules::{LONGEST_NAME, Refusal};

// A field, whose content is from `start` to before `end`.
#[derive(Clone, Copy)]
pub struct Field {
    pub tag: u8,
    pub start: usize,
    pub end: usize,
}

// A number of two bytes, the low byte first.
pub fn le16(job: &[u8], at: usize) -> usize
    requires { at + 2 ≤ length job.now }
    ensures { (result ≡ from_little (take 2 (drop at job.now))) × (result < 65536) }
{
    (job[at] as usize) + 256 * (job[at + 1] as usize)
}

// 16 bits in two's complement, the low byte first.
pub fn i16le(job: &[u8], at: usize) -> i32
    requires { at + 2 ≤ length job.now }
    ensures { result ≡ signed 15 (from_little (take 2 (drop at job.now))) }
{
    signed16(le16(job, at) as u32)
}

// Whether a tag may follow the one before, 0 at the front.
#[tactic(auto, unfolding(rules::specs::Jobs::follows))]
fn is_next(before: u8, tag: u8) -> bool
    ensures { result ≡ follows before tag }
{
    if before == 0 {
        return tag == 1;
    }
    2 <= tag && tag <= 3 && before <= tag
}

#[tactic(auto, unfolding(rules::specs::Jobs::length_allowed))]
fn is_length(tag: u8, len: usize) -> bool
    ensures { result ≡ length_allowed tag len }
{
    match tag {
        1 => len <= LONGEST_NAME,
        2 => len == 3,
        _ => len % 5 == 0,
    }
}

fn tag_at(job: &[u8], at: usize, before: u8) -> Option<u8>
    requires { at < length job.now }
    ensures { result ≡ tag_by before (get_or job.now at 0) }
{
    let tag = job[at];
    if is_next(before, tag) {
        Some(tag)
    } else {
        None
    }
}

// The length that stands at `at`.
fn length_at(job: &[u8], at: usize, tag: u8) -> Option<usize>
    requires { at ≤ length job.now }
    ensures { result ≡ length_by tag (drop at job.now) }
{
    if job.len() - at < 2 {
        return None;
    }
    let len = le16(job, at);
    if job.len() - at - 2 < len || !is_length(tag, len) {
        return None;
    }
    Some(len)
}

// The field at a place, behind one with the tag `before`, 0 at the front, or why the job is refused there.
pub fn field_at(job: &[u8], at: usize, before: u8) -> Result<Field, Refusal>
    requires { at < length job.now }
    ensures { FieldRead job.now before at result }
{
    let Some(tag) = tag_at(job, at, before) else {
        return Err(Refusal::BadTag);
    };
    let Some(len) = length_at(job, at + 1, tag) else {
        return Err(Refusal::BadLength);
    };
    let start = at + 3;
    Ok(Field {
        tag,
        start,
        end: start + len,
    })
}

// What a file's first bytes tell: whether the file is refused, what its reading goes on from, and its label.
// A port of src/formats/read.rs of zigzag, changed.
#![tactic(auto)]

ghost use Rattle.std.specs.Prelude.{◌≡◌, [], ◌∷◌, ◌≤◌, length, Some};
ghost use Rattle.read_header.specs.Spans.{Holds};
ghost use Rattle.rules.specs.Files.{file_verdict, label_told};
ghost use Rattle.rules.specs.Text.{begins};
ghost use Rattle.rules.specs.Vp3.{vp3_opening};
ghost use Rattle.rules.specs.Refusals.{extension_of};
ghost use Rattle.read_refusals.specs.Labels.{label_answered};
ghost use Rattle.read_refusals.specs.Openings.{byte_of, label_by, pec_front, pes_front, dst_front, jef_front, vp3_front, front_of};

use formats::extension_of;
use read_header::{Span, dst_label_at, i32le, part, pec_label_at};
use read_vp3::check;
use rules::{Counts, DST_HEADER, Format, LONGEST_FILE, Refusal};

// What the reading of a file goes on from: a PEC part's start and its count byte, a JEF file's offset, what the answers of a VP3 file
// hold.
#[derive(Clone, Copy)]
pub enum Head {
    Pec { start: usize, count: u8 },
    Dst,
    Exp,
    Jef { offset: i32 },
    Vp3 { counts: Counts },
}

// The byte k places after start.
fn byte_of(file: &[u8], start: usize, k: usize) -> Option<u8>
    ensures { result ≡ byte_of start k file.now }
{
    if file.len() <= start {
        return None;
    }
    if file.len() - start <= k {
        return None;
    }
    Some(file[start + k])
}

// A PEC part must have its count byte.
fn pec_front(file: &[u8], start: usize) -> Result<Head, Refusal>
    ensures { result ≡ pec_front start file.now }
{
    let Some(count) = byte_of(file, start, 48) else {
        return Err(Refusal::FileTooShort);
    };
    Ok(Head::Pec { start, count })
}

// A PES says where its PEC part begins.
fn pes_front(file: &[u8]) -> Result<Head, Refusal>
    ensures { result ≡ pes_front file.now }
{
    if !file.starts_with(b"#PES") {
        return Err(Refusal::BadOpening);
    }
    let Some(start) = i32le(file, 8) else {
        return Err(Refusal::FileTooShort);
    };
    if start < 0 {
        return Err(Refusal::StartBelowZero);
    }
    pec_front(file, start as usize)
}

fn dst_front(file: &[u8]) -> Result<Head, Refusal>
    ensures { result ≡ dst_front file.now }
{
    if file.len() < DST_HEADER {
        return Err(Refusal::FileTooShort);
    }
    Ok(Head::Dst)
}

fn jef_front(file: &[u8]) -> Result<Head, Refusal>
    ensures { result ≡ jef_front file.now }
{
    let Some(offset) = i32le(file, 0) else {
        return Err(Refusal::FileTooShort);
    };
    Ok(Head::Jef { offset })
}

// A VP3 file is gone through to its end.
fn vp3_front(file: &[u8]) -> Result<Head, Refusal>
    requires { length file.now ≤ 2097152 }
    ensures { result ≡ vp3_front file.now }
{
    if file.starts_with(b"%vsm%\0") {
        // A match in place of `?`, so that a must-fail edit can change what a fault answers, and nothing else.
        return match check(file) {
            Ok(counts) => Ok(Head::Vp3 { counts }),
            Err(why) => Err(why),
        };
    }
    Err(Refusal::BadOpening)
}

// Refusals 2 to 5 and 12, and what the reading goes on from if there is none of them.
pub fn front(f: Format, file: &[u8]) -> Result<Head, Refusal>
    ensures { result ≡ front_of f file.now }
{
    if LONGEST_FILE < file.len() {
        return Err(Refusal::FileTooLong);
    }
    match f {
        Format::Pes => pes_front(file),
        Format::Pec => pec_front(file, 8),
        Format::Dst => dst_front(file),
        Format::Exp => Ok(Head::Exp),
        Format::Jef => jef_front(file),
        Format::Vp3 => vp3_front(file),
    }
}

// Where the label of a file stands whose opening is known.
fn label_of_at(head: Head, file: &[u8]) -> Span
    ensures { Holds result file.now (label_by head file.now) }
{
    match head {
        Head::Pec { start, .. } => pec_label_at(file, start),
        Head::Dst => dst_label_at(file),
        Head::Exp => Span { start: 0, len: 0 },
        Head::Jef { .. } => Span { start: 0, len: 0 },
        Head::Vp3 { .. } => Span { start: 0, len: 0 },
    }
}

// Where the label of a file of format f stands, or why the file is refused.
fn label_answer_in(f: Format, file: &[u8]) -> Result<Span, Refusal>
    ensures { label_answered (file_verdict (Some f) file.now) file.now (label_told (Some f) file.now) result }
{
    let head = front(f, file)?;
    Ok(label_of_at(head, file))
}

// Where the label of a file stands, or why the file is refused: every refusal of reading but 11.
pub fn label_answer(ext: &[u8], file: &[u8]) -> Result<Span, Refusal>
    ensures { label_answered (file_verdict (extension_of ext.now) file.now) file.now (label_told (extension_of ext.now) file.now) result }
{
    let Some(f) = extension_of(ext) else {
        return Err(Refusal::UnknownExtension);
    };
    label_answer_in(f, file)
}

// Where the label of a file stands: nothing, at its start, under a refusal.
pub fn label_at(ext: &[u8], file: &[u8]) -> Span
    ensures { Holds result file.now (label_told (extension_of ext.now) file.now) }
{
    let Ok(p) = label_answer(ext, file) else {
        return Span { start: 0, len: 0 };
    };
    p
}

// The label of a file, as a part of it: empty for EXP, JEF and VP3, and under every refusal of reading but 11.
pub fn label<'a>(ext: &[u8], file: &'a [u8]) -> &'a [u8]
    ensures { result.now ≡ label_told (extension_of ext.now) file.now }
{
    let p = label_at(ext, file);
    part(file, p.start, p.len)
}

// Whether what a file sews lies in a hoop, without a buffer: every place is looked at as it is read, up to the first that is outside.
#![tactic(auto)]

ghost use Rattle.std.specs.Prelude.{◌≡◌, pos, Some, Ok};
ghost use Rattle.rules.specs.Answers.{places};
ghost use Rattle.rules.specs.Hoop.{all_in_hoop, fits_told};
ghost use Rattle.rules.specs.Refusals.{extension_of};
ghost use Rattle.rules.specs.Vocabulary.{pick};
ghost use Rattle.read.specs.Answered.{Opened, events_by};

use formats::extension_of;
use hoop_records::fits_records;
use read::{jef_stitches, rest};
use read_records::Row;
use read_refusals::{Head, front};
use rules::{DST_HEADER, Format, Hoop, Refusal};

// A file that is not refused, by what its opening gave.
fn fits_part(head: Head, h: Hoop, file: &[u8]) -> bool
    requires { Opened head file.now }
    ensures { result ≡ all_in_hoop h (places (pos 0) (pos 0) 0 (events_by head file.now)) }
{
    match head {
        Head::Pec { start, .. } => fits_records(Row::Pec, h, rest(file, start + 528)),
        Head::Dst => fits_records(Row::Dst, h, rest(file, DST_HEADER)),
        Head::Exp => fits_records(Row::Exp, h, file),
        Head::Jef { offset } => fits_records(Row::Jef, h, jef_stitches(file, offset)),
        Head::Vp3 { .. } => hoop_vp3::fits(h, file),
    }
}

// A file of format f.
fn fits_stitch_file(f: Format, h: Hoop, file: &[u8]) -> Result<bool, Refusal>
    ensures { result ≡ fits_told (Some f) file.now h }
{
    let head = front(f, file)?;
    Ok(fits_part(head, h, file))
}

// Whether every place of every run of a file has x from left to right and y from top to bottom, edges included; or why the file is
// refused, by every refusal of reading but 11. A file without runs is a yes.
pub fn fits(
    ext: &[u8],
    file: &[u8],
    left: i32,
    right: i32,
    top: i32,
    bottom: i32,
) -> Result<bool, Refusal>
    ensures { result ≡ fits_told (extension_of ext.now) file.now (record { left = left; right = right; top = top; bottom = bottom }) }
{
    let Some(f) = extension_of(ext) else {
        return Err(Refusal::UnknownExtension);
    };
    let h = Hoop {
        left,
        right,
        top,
        bottom,
    };
    fits_stitch_file(f, h, file)
}

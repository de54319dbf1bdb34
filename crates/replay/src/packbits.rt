// Compares a file with one that is packed by PackBits.
use super::bytes::byte;

// How many bytes of the file a control stands for.
fn opened(control: u8) -> usize {
    if control < 128 {
        return (control as usize) + 1;
    }
    257 - (control as usize)
}

// How many bytes follow a control.
fn taken(control: u8) -> usize {
    if control < 128 {
        return (control as usize) + 1;
    }
    1
}

// Whether a control with the bytes that follow it stands for these of the file.
fn run_same(control: u8, follow: &[u8], file: &[u8]) -> bool {
    if control < 128 {
        return follow == file;
    }
    if control == 128 {
        return false;
    }
    let b = byte(follow, 0);
    file.iter().all(|x| *x == b)
}

// Whether the packed bytes open to the file, and nothing is left of either.
pub fn opens_to(packed: &[u8], file: &[u8]) -> bool {
    let mut at = 0;
    let mut to = 0;
    // Kept as while: each turn goes on by its control's own length.
    while at < packed.len() {
        let control = packed[at];
        let follow = taken(control);
        let n = opened(control);
        let start = at + 1;
        if packed.len() - start < follow {
            return false;
        }
        if file.len() - to < n {
            return false;
        }
        let end = start + follow;
        let next = to + n;
        if !run_same(control, &packed[start..end], &file[to..next]) {
            return false;
        }
        at = end;
        to = next;
    }
    to == file.len()
}

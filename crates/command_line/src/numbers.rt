// A number of 32 signed bits that an argument gives.
ghost use Rattle.std.specs.Prelude.{◌≡◌, ◌&&◌, ◌+◌, ◌-◌, ◌*◌, ◌^◌, ◌≤◌, leb, Some, None};
ghost use Rattle.rules.specs.Vocabulary.{pick};
ghost use Rattle.command_line.specs.Numbers.{is_digit, decimal_from, digits_up_to, from_zero, below_zero, number_in};

// The number n with one more digit behind it, if it is up to a bound.
#[tactic(auto, unfolding(crate::specs::Numbers::is_digit))]
fn with_digit(n: u64, b: u8, most: u64) -> Option<u64>
    requires { n ≤ 2 ^ 31 }
    ensures { result ≡ pick (is_digit b && leb (10 * n + (b - 0x30)) most) (Some (10 * n + (b - 0x30))) None }
{
    if !b.is_ascii_digit() {
        return None;
    }
    let m = 10 * n + (b - b'0') as u64;
    if most < m {
        return None;
    }
    Some(m)
}

// The number of a text of digits. It only grows, so one that passes the bound ends the loop.
fn digits_up_to(text: &[u8], most: u64) -> Option<u64>
    requires { most ≤ 2 ^ 31 }
    ensures { result ≡ pick (digits_up_to most text.now) (Some (decimal_from 0 text.now)) None }
{
    if text.len() == 0 {
        return None;
    }
    let mut n = 0;
    for b in text {
        n = with_digit(n, *b, most)?;
    }
    Some(n)
}

// Digits alone.
fn from_zero(text: &[u8]) -> Option<i32>
    ensures { result ≡ from_zero text.now }
{
    let n = digits_up_to(text, 2147483647)?;
    Some(n as i32)
}

// Digits that a minus sign stood before.
fn below_zero(text: &[u8]) -> Option<i32>
    ensures { result ≡ below_zero text.now }
{
    let n = digits_up_to(text, 2147483648)?;
    Some((0 - n as i64) as i32)
}

// Digits, behind a minus sign if the number is below zero.
pub fn number_in(text: &[u8]) -> Option<i32>
    ensures { result ≡ number_in text.now }
{
    if text.len() == 0 {
        return None;
    }
    if text[0] == b'-' {
        return below_zero(&text[1..]);
    }
    from_zero(text)
}

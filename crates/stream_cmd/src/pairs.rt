// EXP and JEF: a step is the bytes x and -y; 80 opens a control.
// A port of src/formats/more.rs of zigzag, changed.
ghost use Rattle.std.specs.Prelude.{◌≡◌, ◌∷◌, ◌+◌, ◌≤◌, nat_abs, neg_ℤ, length};
ghost use Rattle.rules.specs.Vocabulary.{bits_of};
ghost use Rattle.rules.specs.Exp.{pair_of, exp_cmd};
ghost use Rattle.rules.specs.Jef.{jef_cmd};
ghost use Rattle.stream_cmd.specs.declared.Stream.TheVariants.{Exp, Jef};
ghost use Rattle.laws.specs.Buffers.{Puts};
ghost use Rattle.stream_cmd.specs.Cmds.{cmd_of, pair_stream, Step};

use emit::{low_byte, put2, put4};
use rules::Op;

// The negative of a small number in two's complement.
fn minus_byte(z: i32) -> u8
    requires { nat_abs z ≤ 127 }
    ensures { result ≡ bits_of 7 (neg_ℤ z) }
{
    low_byte(0 - z)
}

pub fn put_pair(dx: i32, dy: i32, out: &mut [u8], at: usize) -> usize
    requires dx_bound { (nat_abs dx ≤ 127) × (nat_abs dy ≤ 127) }
    requires at_in_bounds { at + 2 ≤ length out.old }
    ensures { Puts out at result (pair_of dx dy) }
{
    put2(out, at, low_byte(dx), minus_byte(dy))
}

// A jump is a control with its step.
fn put_jump(control: u8, dx: i32, dy: i32, out: &mut [u8], at: usize) -> usize
    requires dx_bound { (nat_abs dx ≤ 127) × (nat_abs dy ≤ 127) }
    requires at_in_bounds { at + 4 ≤ length out.old }
    ensures { Puts out at result (0x80 ∷ control ∷ pair_of dx dy) }
{
    put4(out, at, 0x80, control, low_byte(dx), minus_byte(dy))
}

fn exp_cmd(op: Op, dx: i32, dy: i32, out: &mut [u8], at: usize) -> usize
    requires step { Step Exp dx dy }
    requires dy_in_bounds { at + length (exp_cmd op dx dy) ≤ length out.old }
    ensures { Puts out at result (exp_cmd op dx dy) }
{
    match op {
        Op::Stitch => put_pair(dx, dy, out, at),
        Op::Jump => put_jump(0x04, dx, dy, out, at),
        Op::Trim => put4(out, at, 0x80, 0x80, 0x07, 0x00),
        Op::ColorChange => put4(out, at, 0x80, 0x01, 0x00, 0x00),
        Op::End => at,
    }
}

fn jef_cmd(op: Op, dx: i32, dy: i32, out: &mut [u8], at: usize) -> usize
    requires step { Step Jef dx dy }
    requires dy_in_bounds { at + length (jef_cmd op dx dy) ≤ length out.old }
    ensures { Puts out at result (jef_cmd op dx dy) }
{
    match op {
        Op::Stitch => put_pair(dx, dy, out, at),
        Op::Jump => put_jump(0x02, dx, dy, out, at),
        Op::Trim => at,
        Op::ColorChange => put4(out, at, 0x80, 0x01, 0x00, 0x00),
        Op::End => put2(out, at, 0x80, 0x10),
    }
}

// A command of JEF, or else of EXP.
pub fn pair_cmd(jef: bool, op: Op, dx: i32, dy: i32, out: &mut [u8], at: usize) -> usize
    requires step { Step (pair_stream jef) dx dy }
    requires dy_in_bounds { at + length (cmd_of (pair_stream jef) op dx dy) ≤ length out.old }
    ensures { Puts out at result (cmd_of (pair_stream jef) op dx dy) }
{
    if jef {
        return jef_cmd(op, dx, dy, out, at);
    }
    exp_cmd(op, dx, dy, out, at)
}

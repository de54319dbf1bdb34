// The bytes of one command in DST, EXP and JEF.
// A port of src/formats/dst.rs and src/formats/more.rs of zigzag, changed.
#![tactic(auto)]

pub mod pairs;
pub mod triples;

// The formats whose file holds the bytes of one command after those of the other.
#[derive(Clone, Copy)]
pub enum Stream {
    Dst,
    Exp,
    Jef,
}

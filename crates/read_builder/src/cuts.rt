// The cuts of a DST: rows of three or more jumps between two stitches of one block.
// Counting takes two numbers beside the builder: the cuts so far; and `since`, which is 0 while the block has no stitch, and else one
// more than the jumps since its last. They are no struct: the compiler would keep it as one number, and the loop would be slower.
ghost use Rattle.std.specs.Prelude.{ℕ, ◌+◌, ◌^◌, ◌≤◌, ◌<◌, ℤ};
ghost use Rattle.rules.specs.Records.{stitch, jump};
ghost use Rattle.read_builder.specs.Cuts.{Kept};

// The cuts after a stitch, which may end a row; `since` is 1 then.
pub fn cuts_after_stitch(since: u32, cuts: u32) -> u32
    requires { cuts < 2 ^ 31 }
    ensures kept { (dx dy : ℤ) → Kept (stitch dx dy) since cuts 1 result }
    ensures upper_bound { result ≤ cuts + 1 }
{
    if since < 4 {
        return cuts;
    }
    cuts + 1
}

// `since` after a jump; the cuts stay.
pub fn since_after_jump(since: u32) -> u32
    requires { since < 2 ^ 31 }
    ensures kept { (dx dy : ℤ) (cuts : ℕ) → Kept (jump dx dy) since cuts result cuts }
    ensures upper_bound { result ≤ since + 1 }
{
    if since == 0 {
        return 0;
    }
    since + 1
}

// The colour of a block.
// A port of src/formats/read.rs of zigzag, changed.
ghost use Rattle.std.specs.Prelude.{◌≡◌};
ghost use Rattle.rules.specs.Files.{or_default};
ghost use Rattle.rules.specs.Layout.{nothing};
ghost use Rattle.read_builder.specs.Colour.{colour_in};

const DEFAULT_COLORS: [u32; 8] = [
    0x1E1E1E, 0xC82828, 0x1E5AAA, 0xF0B41E, 0x288C46, 0x823C96, 0xE6781E, 0x5A5A5A,
];

fn default_color(k: u32) -> u32
    ensures { result ≡ or_default nothing k }
{
    DEFAULT_COLORS[(k % 8) as usize]
}

// The stored colour of block k, or else a default by its number. A cell has the chart entry above the 24 bits of the colour.
pub fn color_of(colors: &[u32], k: u32) -> u32
    ensures { result ≡ colour_in colors.now k }
{
    let i = k as usize;
    if i < colors.len() {
        return colors[i] % 16777216;
    }
    default_color(k)
}

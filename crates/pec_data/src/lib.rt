// PEC's chart of threads and the blank thumbnail. Entry 0 of the chart is never chosen.
// A port of src/formats/pec_data.rs of zigzag, changed.
#![tactic(auto)]

ghost use Rattle.std.specs.Prelude.{◌≡◌, ◌<◌, get_or};
ghost use Rattle.std.proofs.lemmas.List.Edits.{sets};
ghost use Rattle.rules.specs.Charts.{color, pec_chart, blank_icon};
ghost use Rattle.pec_data.specs.Border.{edge_of, border};

use rules::Color;

// PEC's chart of 65 threads.
pub const PEC_PALETTE: [Color; 65] = [
    Color(0, 0, 0),
    Color(14, 31, 124),
    Color(10, 85, 163),
    Color(0, 135, 119),
    Color(75, 107, 175),
    Color(237, 23, 31),
    Color(209, 92, 0),
    Color(145, 54, 151),
    Color(228, 154, 203),
    Color(145, 95, 172),
    Color(158, 214, 125),
    Color(232, 169, 0),
    Color(254, 186, 53),
    Color(255, 255, 0),
    Color(112, 188, 31),
    Color(186, 152, 0),
    Color(168, 168, 168),
    Color(125, 111, 0),
    Color(255, 255, 179),
    Color(79, 85, 86),
    Color(0, 0, 0),
    Color(11, 61, 145),
    Color(119, 1, 118),
    Color(41, 49, 51),
    Color(42, 19, 1),
    Color(246, 74, 138),
    Color(178, 118, 36),
    Color(252, 187, 197),
    Color(254, 55, 15),
    Color(240, 240, 240),
    Color(106, 28, 138),
    Color(168, 221, 196),
    Color(37, 132, 187),
    Color(254, 179, 67),
    Color(255, 243, 107),
    Color(208, 166, 96),
    Color(209, 84, 0),
    Color(102, 186, 73),
    Color(19, 74, 70),
    Color(135, 135, 135),
    Color(216, 204, 198),
    Color(67, 86, 7),
    Color(253, 217, 222),
    Color(249, 147, 188),
    Color(0, 56, 34),
    Color(178, 175, 212),
    Color(104, 106, 176),
    Color(239, 227, 185),
    Color(247, 56, 102),
    Color(181, 75, 100),
    Color(19, 43, 26),
    Color(199, 1, 86),
    Color(254, 158, 50),
    Color(168, 222, 235),
    Color(0, 103, 62),
    Color(78, 41, 144),
    Color(47, 126, 32),
    Color(255, 204, 204),
    Color(255, 217, 17),
    Color(9, 91, 166),
    Color(240, 249, 112),
    Color(227, 243, 91),
    Color(255, 153, 0),
    Color(255, 240, 141),
    Color(255, 200, 200),
];

// The thread at an entry of the chart.
pub fn pec_thread(i: usize) -> Color
    requires { i < 65 }
    ensures { result ≡ get_or pec_chart i (color 0 0 0) }
{
    let chart = PEC_PALETTE;
    chart[i]
}

// The border's byte at the left of a row from 2 to 35; at the right it is mirrored.
fn edge(row: usize) -> u8
    ensures { (result ≡ edge_of row) × (0 < result) }
{
    match row {
        2 | 35 => 0x08,
        3 | 34 => 0x04,
        _ => 0x02,
    }
}

// The border's first and last row.
fn closed(mut icon: [u8; 228]) -> [u8; 228]
    ensures { result ≡ sets (sets icon 6 border) 216 border }
{
    icon[6] = 0xF0;
    icon[7] = 0xFF;
    icon[8] = 0xFF;
    icon[9] = 0xFF;
    icon[10] = 0xFF;
    icon[11] = 0x0F;
    icon[216] = 0xF0;
    icon[217] = 0xFF;
    icon[218] = 0xFF;
    icon[219] = 0xFF;
    icon[220] = 0xFF;
    icon[221] = 0x0F;
    icon
}

// The blank thumbnail: 38 rows of 6 bytes, lowest bit leftmost, and a rounded border.
pub fn pec_icon_blank() -> [u8; 228]
    ensures { result ≡ blank_icon }
{
    let mut icon = [0u8; 228];
    for row in 2..36 {
        let left = edge(row);
        icon[6 * row] = left;
        icon[6 * row + 5] = 128 / left;
    }
    closed(icon)
}

// JEF's chart of threads. Entry 0 is never chosen.
// A port of src/formats/jef_data.rs of zigzag, changed.
#![tactic(auto)]

ghost use Rattle.std.specs.Prelude.{◌≡◌, ◌<◌, get_or};
ghost use Rattle.rules.specs.Charts.{color, jef_chart};

use rules::Color;

// JEF's chart of 79 threads.
pub const JEF_PALETTE: [Color; 79] = [
    Color(0, 0, 0),
    Color(0, 0, 0),
    Color(255, 255, 255),
    Color(255, 255, 23),
    Color(255, 102, 0),
    Color(47, 89, 51),
    Color(35, 115, 54),
    Color(101, 194, 200),
    Color(171, 90, 150),
    Color(246, 105, 160),
    Color(255, 0, 0),
    Color(177, 112, 78),
    Color(11, 47, 132),
    Color(228, 195, 93),
    Color(72, 26, 5),
    Color(172, 156, 199),
    Color(252, 242, 148),
    Color(249, 153, 183),
    Color(250, 179, 129),
    Color(201, 164, 128),
    Color(151, 5, 51),
    Color(160, 184, 204),
    Color(127, 194, 28),
    Color(229, 229, 229),
    Color(136, 155, 155),
    Color(152, 214, 189),
    Color(178, 225, 227),
    Color(54, 139, 160),
    Color(79, 131, 171),
    Color(56, 106, 145),
    Color(7, 22, 80),
    Color(249, 153, 162),
    Color(249, 103, 107),
    Color(227, 49, 31),
    Color(226, 161, 136),
    Color(181, 148, 116),
    Color(228, 207, 153),
    Color(255, 203, 0),
    Color(225, 173, 212),
    Color(195, 0, 126),
    Color(128, 0, 75),
    Color(84, 5, 113),
    Color(177, 5, 37),
    Color(202, 224, 192),
    Color(137, 152, 86),
    Color(92, 148, 26),
    Color(0, 49, 20),
    Color(93, 174, 148),
    Color(76, 191, 143),
    Color(0, 119, 114),
    Color(89, 91, 97),
    Color(255, 255, 242),
    Color(177, 88, 24),
    Color(203, 138, 7),
    Color(152, 108, 128),
    Color(152, 105, 45),
    Color(77, 52, 25),
    Color(76, 51, 11),
    Color(51, 32, 10),
    Color(82, 58, 151),
    Color(13, 33, 126),
    Color(30, 119, 172),
    Color(178, 221, 83),
    Color(243, 54, 137),
    Color(222, 100, 158),
    Color(152, 65, 97),
    Color(76, 86, 18),
    Color(76, 136, 31),
    Color(228, 222, 121),
    Color(203, 138, 26),
    Color(203, 162, 28),
    Color(255, 152, 5),
    Color(252, 178, 87),
    Color(255, 229, 5),
    Color(240, 51, 31),
    Color(26, 132, 45),
    Color(56, 108, 174),
    Color(227, 196, 180),
    Color(227, 172, 129),
];

// The thread at an entry of the chart.
pub fn jef_thread(i: usize) -> Color
    requires { i < 79 }
    ensures { result ≡ get_or jef_chart i (color 0 0 0) }
{
    let chart = JEF_PALETTE;
    chart[i]
}

// What is read of a file besides its stitches: numbers, labels, stored colours.
// A port of src/formats/read.rs of zigzag, changed.
#![tactic(auto)]

ghost use Rattle.std.specs.Prelude.{◌≡◌, ◌&&◌, [], ◌∷◌, ◌+◌, ◌*◌, ◌≤◌, ◌<◌, min, leb, nat_abs, length, take, drop, get_or};
ghost use Rattle.rules.specs.Vocabulary.{signed};
ghost use Rattle.rules.specs.Files.{color_number};
ghost use Rattle.rules.specs.Text.{blank, trim_start, trim_end, trimmed, lines_of, begins};
ghost use Rattle.rules.specs.Dst.{last_label, hex_digit, hex_pair, hex_color, six_digits, drop_hashes, before_comma, line_color, line_colors};
ghost use Rattle.rules.specs.Layout.{shade_at, charted, from_chart};
ghost use Rattle.rules.specs.Pec.{pec_entry, pec_stored};
ghost use Rattle.rules.specs.Jef.{jef_count, jef_entry, jef_stored};
ghost use Rattle.rules.specs.Charts.{pec_chart, jef_chart};
ghost use Rattle.read_header.specs.Words.{word_of};
ghost use Rattle.read_header.specs.Lines.{Line};
ghost use Rattle.read_header.specs.Spans.{Holds};
ghost use Rattle.read_header.specs.Colors.{Held, Cells, Added};

use rules::{Color, DST_HEADER};

// A part of a slice, by its place.
#[derive(Clone, Copy)]
pub struct Span {
    pub start: usize,
    pub len: usize,
}

// Four bytes as a signed number, low byte first.
pub fn i32le(file: &[u8], at: usize) -> Option<i32>
    ensures { result ≡ word_of at file.now }
{
    if file.len() < 4 {
        return None;
    }
    if file.len() - 4 < at {
        return None;
    }
    Some(i32::from_le_bytes([file[at], file[at + 1], file[at + 2], file[at + 3]]))
}

#[tactic(auto, unfolding(rules::specs::Text::blank))]
fn is_blank(b: u8) -> bool
    ensures { result ≡ blank b }
{
    matches!(b, 0x09..=0x0D | b' ')
}

// Where the blanks at the start end.
fn start_of(s: &[u8]) -> usize
    ensures { (result ≤ length s.now) × (drop result s.now ≡ trim_start s.now) }
{
    s.iter().position(|b| !is_blank(*b)).unwrap_or(s.len())
}

// Where the blanks at the end begin.
fn end_of(s: &[u8]) -> usize
    ensures { (result ≤ length s.now) × (take result s.now ≡ trim_end s.now) }
{
    for i in (0..s.len()).rev() {
        if !is_blank(s[i]) {
            return i + 1;
        }
    }
    0
}

// The place k bytes after another, or the slice's end.
fn ahead(s: &[u8], from: usize, k: usize) -> usize
    ensures { result ≡ min (from + k) (length s.now) }
{
    from.saturating_add(k).min(s.len())
}

// At most len bytes from a place on, cut where the slice ends.
pub fn part(s: &[u8], from: usize, len: usize) -> &[u8]
    ensures { result.now ≡ take len (drop from s.now) }
{
    let a = ahead(s, from, 0);
    let e = ahead(s, from, len);
    &s[a..e]
}

// Where a part of a slice stands without the blanks at both ends.
pub fn trimmed_at(s: &[u8], start: usize, len: usize) -> Span
    requires { start + len ≤ length s.now }
    ensures { Holds result s.now (trimmed (take len (drop start s.now))) }
{
    let t = part(s, start, len);
    let a = start_of(t);
    let e = end_of(&t[a..]);
    Span {
        start: start + a,
        len: e,
    }
}

// A text without the blanks at both ends.
pub fn trimmed(s: &[u8]) -> &[u8]
    ensures { result.now ≡ trimmed s.now }
{
    let p = trimmed_at(s, 0, s.len());
    part(s, p.start, p.len)
}

// Where the label of a PEC part stands that begins at start.
pub fn pec_label_at(file: &[u8], start: usize) -> Span
    ensures { Holds result file.now (trimmed (take 16 (drop (start + 3) file.now))) }
{
    let a = ahead(file, start, 3);
    let e = ahead(file, start, 19);
    trimmed_at(file, a, e - a)
}

// The label of a PEC part that begins at start.
pub fn pec_label(file: &[u8], start: usize) -> &[u8]
    ensures { result.now ≡ trimmed (take 16 (drop (start + 3) file.now)) }
{
    let p = pec_label_at(file, start);
    part(file, p.start, p.len)
}

// Where the line that begins at `at` ends.
fn line_end(s: &[u8], at: usize) -> usize
    requires { at ≤ length s.now }
    ensures { Line s.now at result }
{
    let line = &s[at..];
    at + line
        .iter()
        .position(|b| *b == b'\r' || *b == b'\n')
        .unwrap_or(line.len())
}

// Where the rest of the last line that begins `LA:` stands.
fn last_label_at(s: &[u8]) -> Span
    requires { length s.now ≤ 512 }
    ensures { Holds result s.now (last_label [] (lines_of s.now)) }
{
    let mut from = 0;
    let mut to = 0;
    let mut at = 0;
    // Kept as while: each turn goes on by its line's own length.
    while at <= s.len() {
        let e = line_end(s, at);
        if s[at..e].starts_with(b"LA:") {
            from = at + 3;
            to = e;
        }
        at = e + 1;
    }
    Span {
        start: from,
        len: to - from,
    }
}

// Where the label of a DST file stands.
pub fn dst_label_at(file: &[u8]) -> Span
    ensures { Holds result file.now (trimmed (last_label [] (lines_of (take 512 file.now)))) }
{
    let p = last_label_at(part(file, 0, DST_HEADER));
    trimmed_at(file, p.start, p.len)
}

// The label of a DST file.
pub fn dst_label(file: &[u8]) -> &[u8]
    ensures { result.now ≡ trimmed (last_label [] (lines_of (take 512 file.now))) }
{
    let p = dst_label_at(file);
    part(file, p.start, p.len)
}

// The value of a hexadecimal digit; 16 of any other byte.
#[tactic(auto, unfolding(rules::specs::Dst::hex_digit))]
fn hex_digit(b: u8) -> u32
    ensures { (result ≡ hex_digit b) × (result ≤ 16) }
{
    match b {
        b'0'..=b'9' => (b - b'0') as u32,
        b'A'..=b'F' => (b - b'A') as u32 + 10,
        b'a'..=b'f' => (b - b'a') as u32 + 10,
        _ => 16,
    }
}

// A hexadecimal pair, or `+` and one digit; 256 where it is neither.
pub fn hex_pair(a: u8, b: u8) -> u32
    ensures { result ≡ hex_pair a b }
{
    let low = hex_digit(b);
    if 16 <= low {
        return 256;
    }
    if a == 0x2B {
        return low;
    }
    let high = hex_digit(a);
    if 16 <= high {
        return 256;
    }
    16 * high + low
}

fn hex_color(r: u32, g: u32, b: u32) -> Option<Color>
    ensures { result ≡ hex_color r g b }
{
    if 256 <= r {
        return None;
    }
    if 256 <= g {
        return None;
    }
    if 256 <= b {
        return None;
    }
    Some(Color(r as u8, g as u8, b as u8))
}

// Exactly six bytes as a colour.
pub fn six_digits(s: &[u8]) -> Option<Color>
    ensures { result ≡ six_digits s.now }
{
    if s.len() != 6 {
        return None;
    }
    let r = hex_pair(s[0], s[1]);
    let g = hex_pair(s[2], s[3]);
    let b = hex_pair(s[4], s[5]);
    hex_color(r, g, b)
}

// Where the first comma stands, or the text ends.
fn comma_of(s: &[u8]) -> usize
    ensures { (result ≤ length s.now) × (take result s.now ≡ before_comma s.now) }
{
    s.iter().position(|b| *b == b',').unwrap_or(s.len())
}

// Where the `#` at the start end.
fn hashes_of(s: &[u8]) -> usize
    ensures { (result ≤ length s.now) × (drop result s.now ≡ drop_hashes s.now) }
{
    s.iter().position(|b| *b != b'#').unwrap_or(s.len())
}

// The colour of a text that may go on after a comma.
fn text_color(s: &[u8]) -> Option<Color>
    ensures { result ≡ six_digits (drop_hashes (trimmed (before_comma s.now))) }
{
    let e = comma_of(s);
    let t = trimmed(&s[..e]);
    let a = hashes_of(t);
    six_digits(&t[a..])
}

// The colour of a `TC:` line.
pub fn line_color(line: &[u8]) -> Option<Color>
    ensures { result ≡ line_color line.now }
{
    if line.starts_with(b"TC:") {
        return text_color(part(line, 3, line.len()));
    }
    None
}

// A colour as one number, of 24 bits.
pub fn number_of(c: Color) -> u32
    ensures { (result ≡ color_number c) × (result < 16777216) }
{
    65536 * (c.0 as u32) + 256 * (c.1 as u32) + (c.2 as u32)
}

// What is stored for a block as one cell: the chart entry above the 24 bits of the colour.
fn cell_of(entry: u8, c: Color) -> u32
    ensures { Held (charted entry c) result }
{
    16777216 * (entry as u32) + number_of(c)
}

// Puts a colour of no chart at cell n, if there is one, and reports the next cell.
fn put_color(s: Option<Color>, n: usize, colors: &mut [u32]) -> usize
    requires { n < length colors.old }
    ensures { Added s n colors.old result colors.new }
{
    let Some(c) = s else {
        return n;
    };
    colors[n] = cell_of(255, c);
    n + 1
}

// The colours of the `TC:` lines of a text.
fn line_colors(s: &[u8], colors: &mut [u32]) -> usize
    requires { (length s.now ≤ 512) × (256 ≤ length colors.old) }
    ensures { Cells (shade_at (line_colors (lines_of s.now))) colors.new result }
{
    let mut n = 0;
    let mut at = 0;
    // Kept as while: each turn goes on by its line's own length.
    while at <= s.len() {
        let e = line_end(s, at);
        let c = line_color(&s[at..e]);
        n = put_color(c, n, colors);
        at = e + 1;
    }
    n
}

// The colours of a DST file.
pub fn dst_colors(file: &[u8], colors: &mut [u32]) -> usize
    requires { 256 ≤ length colors.old }
    ensures { Cells (shade_at (line_colors (lines_of (take 512 file.now)))) colors.new result }
{
    line_colors(part(file, 0, DST_HEADER), colors)
}

// The byte k places after start; 0 where the file has ended.
fn byte_at(file: &[u8], start: usize, k: usize) -> u8
    ensures { result ≡ get_or file.now (start + k) 0 }
{
    if file.len() <= start {
        return 0;
    }
    if file.len() - start <= k {
        return 0;
    }
    file[start + k]
}

// The cell of block k of a PEC part.
fn pec_cell(file: &[u8], start: usize, k: usize) -> u32
    requires { k < 256 }
    ensures { Held (from_chart pec_chart (pec_entry start file.now k)) result }
{
    let entry = byte_at(file, start, 49 + k) % 65;
    cell_of(entry, pec_data::pec_thread(entry as usize))
}

// The colours of a PEC part that begins at start: one more than its count byte says.
pub fn pec_colors(file: &[u8], start: usize, count: u8, colors: &mut [u32]) -> usize
    requires in_bounds { 256 ≤ length colors.old }
    requires count_value { count ≡ get_or file.now (start + 48) 0 }
    ensures { Cells (pec_stored start file.now) colors.new result }
{
    let n = (count as usize) + 1;
    for k in 0..n {
        colors[k] = pec_cell(file, start, k);
    }
    n
}

// How many colours a JEF file says that it has, at most 256.
fn jef_count(file: &[u8]) -> usize
    ensures { result ≡ jef_count file.now }
{
    let w = i32le(file, 24);
    let Some(z) = w else {
        return 0;
    };
    if z < 0 {
        return 0;
    }
    (z.unsigned_abs() as usize).min(256)
}

// The cell of block k of a JEF file, whose entry is wholly there.
fn jef_cell(file: &[u8], k: usize) -> u32
    requires { (k < 256) × (120 + 4 * k ≤ length file.now) }
    ensures { Held (from_chart jef_chart (jef_entry file.now k)) result }
{
    let w = i32le(file, 116 + 4 * k);
    let Some(z) = w else {
        return 0;
    };
    let entry = z.unsigned_abs() as usize % 79;
    cell_of(entry as u8, jef_data::jef_thread(entry))
}

// The colours of a JEF file: as many as it says, as far as they are in the file.
pub fn jef_colors(file: &[u8], colors: &mut [u32]) -> usize
    requires { 256 ≤ length colors.old }
    ensures { Cells (jef_stored file.now) colors.new result }
{
    let n = jef_count(file);
    for k in 0..n {
        if file.len() < 120 + 4 * k {
            return k;
        }
        colors[k] = jef_cell(file, k);
    }
    n
}

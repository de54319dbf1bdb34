// JEF: the entry of the chart for each thread, and its distance.
// A port of src/formats/more.rs of zigzag, changed.
#![tactic(auto)]

ghost use Rattle.std.specs.Prelude.{◌≡◌, set, None};
ghost use Rattle.rules.specs.Choices.{nearest_first_answer, jef_palette, jef_choice_answer};
ghost use Rattle.jef_threads.specs.Distances.{entry_in, distance_in};

use rules::Color;

// The entries of the chart that may be chosen.
pub fn jef_threads() -> [Option<Color>; 79]
    ensures { result ≡ jef_palette }
{
    let mut out = [None; 79];
    for i in 1..79 {
        out[i] = Some(jef_data::jef_thread(i));
    }
    out
}

// A palette with one entry left out.
fn without(palette: [Option<Color>; 79], skip: usize) -> [Option<Color>; 79]
    ensures { result ≡ set palette skip None }
{
    let mut out = palette;
    if 79 <= skip {
        return out;
    }
    out[skip] = None;
    out
}

// JEF's choice: of equal distances the first.
#[tactic(auto, unfolding(rules::specs::Choices::nearest_first_answer))]
fn nearest_first(color: Color, palette: [Option<Color>; 79]) -> Option<(usize, u32)>
    ensures { result ≡ nearest_first_answer color palette }
{
    formats::nearest(false, color, &palette)
}

// The entry of an answer; 1 where there is no thread to choose.
pub fn entry_of(f: Option<(usize, u32)>) -> usize
    ensures { result ≡ entry_in f }
{
    match f {
        Some((i, _)) => i,
        None => 1,
    }
}

// The distance of an answer; 0 where there is no thread to choose.
pub fn distance_of(f: Option<(usize, u32)>) -> u32
    ensures { result ≡ distance_in f }
{
    match f {
        Some((_, d)) => d,
        None => 0,
    }
}

// The nearest entry but one.
fn nearest_but(chart: [Option<Color>; 79], t: Color, skip: usize) -> Option<(usize, u32)>
    ensures { result ≡ nearest_first_answer t (set chart skip None) }
{
    let palette = without(chart, skip);
    nearest_first(t, palette)
}

// The entry for a thread and its distance, with the chart at hand: the nearest, but never that of a neighbour of another colour.
pub fn choice_in(
    chart: [Option<Color>; 79],
    last: Option<(usize, Color)>,
    t: Color,
) -> Option<(usize, u32)>
    requires { chart ≡ jef_palette }
    ensures { result ≡ jef_choice_answer last t }
{
    let nearest = nearest_first(t, chart);
    let Some((i, u)) = last else {
        return nearest;
    };
    if entry_of(nearest) != i {
        return nearest;
    }
    if u == t {
        return nearest;
    }
    nearest_but(chart, t, i)
}

pub fn jef_choice(last: Option<(usize, Color)>, t: Color) -> Option<(usize, u32)>
    ensures { result ≡ jef_choice_answer last t }
{
    choice_in(jef_threads(), last, t)
}

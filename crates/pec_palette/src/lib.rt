// The entries of PEC's chart for the threads: each distinct thread gets one of its own while there are any.
// A port of src/formats/pes.rs of zigzag, changed.
#![tactic(auto)]

ghost use Rattle.std.specs.Prelude.{◌≡◌, [], ◌+◌, ◌≤◌, length, replicate, take, None};
ghost use Rattle.rules.specs.Vocabulary.{pick, any};
ghost use Rattle.rules.specs.Choices.{same_color, nearest_answer, pec_palette};
ghost use Rattle.rules.specs.Lists.{threads_of};
ghost use Rattle.rules.specs.Pec.{distinct, given_to, unique_palette, pec_distance};
ghost use Rattle.formats.specs.Matches.{Matches};
ghost use Rattle.pec_palette.specs.Entries.{set_at, entry_in, entries_in, off_in};

use emit::put;
use formats::{Matched, away, nearest_index, pec_palette};
use pec_threads::thread_at;
use rules::Color;

// Whether one of the first n threads is t.
fn is_seen(t: Color, threads: &[u8], n: usize) -> bool
    requires { n ≤ length (threads_of threads.now) }
    ensures { result ≡ any (same_color t) (take n (threads_of threads.now)) }
{
    for i in 0..n {
        if t == thread_at(threads, i) {
            return true;
        }
    }
    false
}

// The entry that thread i, which is t, is given: none where it has been given one before, or none is free.
fn new_entry(t: Color, threads: &[u8], i: usize, free: [Option<Color>; 65]) -> Option<(usize, u32)>
    requires { i ≤ length (threads_of threads.now) }
    ensures { result ≡ pick (any (same_color t) (take i (threads_of threads.now))) None (nearest_answer t free) }
{
    if is_seen(t, threads, i) {
        return None;
    }
    nearest_index(t, free)
}

// The entries with one filled, if it was found.
fn filled(
    found: Option<(usize, u32)>,
    s: Option<Color>,
    entries: [Option<Color>; 65],
) -> [Option<Color>; 65]
    ensures { result ≡ set_at found s entries }
{
    let mut out = entries;
    let Some((i, _)) = found else {
        return out;
    };
    if 65 <= i {
        return out;
    }
    out[i] = s;
    out
}

// The chart in which each distinct thread stands at its own entry; `own` has the colours of PEC's.
fn unique_chart(own: [Option<Color>; 65], threads: &[u8]) -> [Option<Color>; 65]
    requires { own ≡ pec_palette }
    ensures { result ≡ (given_to (record { free = pec_palette; chart = replicate 65 None }) (distinct [] (threads_of threads.now))).chart }
{
    let n = threads.len() / 3;
    let mut free = own;
    let mut chart = [None; 65];
    for i in 0..n {
        let t = thread_at(threads, i);
        let found = new_entry(t, threads, i, free);
        let less = filled(found, None, free);
        free = less;
        let more = filled(found, Some(t), chart);
        chart = more;
    }
    chart
}

// The entry of a thread in the chart, 0 if there is none.
fn entry_in(chart: [Option<Color>; 65], t: Color) -> u8
    ensures { (result ≡ entry_in chart t) × (result ≤ 64) }
{
    let found = nearest_index(t, chart);
    let Some((i, _)) = found else {
        return 0;
    };
    i as u8
}

// One byte for each thread, its entry in the chart; and the largest distance of a thread from the colour in `own` of its entry.
fn put_entries(
    own: [Option<Color>; 65],
    chart: [Option<Color>; 65],
    threads: &[u8],
    out: &mut [u8],
    at: usize,
) -> Matched
    requires { at + length (threads_of threads.now) ≤ length out.old }
    ensures { Matches out at result (entries_in chart (threads_of threads.now)) (off_in own chart (threads_of threads.now)) }
{
    let n = threads.len() / 3;
    let mut far: u32 = 0;
    let mut to = at;
    for i in 0..n {
        let t = thread_at(threads, i);
        let e = entry_in(chart, t);
        far = far.max(away(t, own[e as usize]));
        to = put(out, to, e);
    }
    Matched {
        end: to,
        distance: far,
    }
}

// One byte for each thread, its entry. The distance is to the chart's own colours: past 64 distinct threads another thread may hold an
// entry.
pub fn unique_palette(threads: &[u8], out: &mut [u8], at: usize) -> Matched
    requires { at + length (threads_of threads.now) ≤ length out.old }
    ensures { Matches out at result (unique_palette (threads_of threads.now)) (pec_distance (threads_of threads.now)) }
{
    let own = pec_palette();
    let chart = unique_chart(own, threads);
    put_entries(own, chart, threads, out, at)
}

// Threads, three bytes each, and the nearest entry of PEC's whole chart to one.
// A port of src/formats/pes.rs of zigzag, changed.
#![tactic(auto)]

ghost use Rattle.std.specs.Prelude.{◌≡◌, ◌<◌, length, get_or};
ghost use Rattle.rules.specs.Charts.{color};
ghost use Rattle.rules.specs.Choices.{pec_palette};
ghost use Rattle.rules.specs.Lists.{threads_of};
ghost use Rattle.rules.specs.Pes.{thread_code};
ghost use Rattle.pec_threads.specs.Codes.{code_of, Coded};

use formats::{nearest_index, pec_palette};
use rules::Color;

// Thread i, from its three bytes.
pub fn thread_at(threads: &[u8], i: usize) -> Color
    requires { i < length (threads_of threads.now) }
    ensures { result ≡ get_or (threads_of threads.now) i (color 0 0 0) }
{
    Color(threads[3 * i], threads[3 * i + 1], threads[3 * i + 2])
}

// Thread i; black where there are too few.
fn thread_or_black(threads: &[u8], i: usize) -> Color
    ensures { result ≡ get_or (threads_of threads.now) i (color 0 0 0) }
{
    if i < threads.len() / 3 {
        return thread_at(threads, i);
    }
    Color(0, 0, 0)
}

// The nearest entry to a thread, with the chart at hand.
fn code_in(chart: [Option<Color>; 65], t: Color) -> usize
    requires { chart ≡ pec_palette }
    ensures { result ≡ code_of t }
{
    let found = nearest_index(t, chart);
    let Some((k, _)) = found else {
        return 1;
    };
    k
}

// The nearest entry to thread i.
pub fn thread_code(threads: &[u8], i: usize) -> usize
    ensures { result ≡ thread_code (threads_of threads.now) i }
{
    let t = thread_or_black(threads, i);
    code_in(pec_palette(), t)
}

// The nearest entries to the first 256 threads.
pub fn thread_codes(threads: &[u8]) -> [u8; 256]
    ensures { Coded (threads_of threads.now) result }
{
    let chart = pec_palette();
    let black = code_in(chart, Color(0, 0, 0)) as u8;
    let mut codes = [black; 256];
    let n = (threads.len() / 3).min(256);
    for i in 0..n {
        codes[i] = code_in(chart, thread_at(threads, i)) as u8;
    }
    codes
}

// The nearest entry to thread i, from those where it is among them.
pub fn code_at(codes: &[u8; 256], threads: &[u8], i: usize) -> usize
    requires { Coded (threads_of threads.now) codes.now }
    ensures { result ≡ thread_code (threads_of threads.now) i }
{
    if i < 256 {
        return codes[i] as usize;
    }
    thread_code(threads, i)
}

// try-bound: a bound (4 bytes) and an order file on standard input; whether a plan meets the bound, or why none does, or the
// refusal, on standard output.
#![tactic(auto)]

use console::answer_input;
use lines::programs::tried_output;

// One byte more than a bound and the longest file is read, so that a longer one is refused.
fn main(rt: HostRuntime) {
    let mut given = [0u8; 849];
    let mut out = [0u8; 804];
    let words: [&[u8]; 2] = [
        b"try-bound: reading standard input",
        b"try-bound: writing standard output",
    ];
    answer_input(&rt, words, &mut given, &mut out, |given, out| {
        let output = tried_output(given, out);
        (output.length, output.refused)
    });
}

// plan-order: an order file on standard input; the least lateness and a plan at it, or the refusal, on standard output.
#![tactic(auto)]

use console::answer_input;
use lines::programs::plan_output;

// One byte more than the longest file is read, so that a longer one is refused.
fn main(rt: HostRuntime) {
    let mut file = [0u8; 845];
    let mut out = [0u8; 151233];
    let words: [&[u8]; 2] = [
        b"plan-order: reading standard input",
        b"plan-order: writing standard output",
    ];
    answer_input(&rt, words, &mut file, &mut out, |file, out| {
        let output = plan_output(file, out);
        (output.length, output.refused)
    });
}

// Reads a sitting file from standard input and prints its report, or the refusal.
#![tactic(auto)]

use answering::answer_stream;

// Lends the store, all zero at the start: what is printed is the answer to all of standard input (judgement/specs/Prints `PrintsInput`).
fn main(rt: HostRuntime) {
    let mut store = [0u32; 8192];
    answer_stream(&mut rt.stdin(), &mut rt.stdout(), &mut store);
}

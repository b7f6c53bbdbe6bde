// Plays a script of store calls from standard input and prints every answer. reference/README.md has the language.
#![tactic(auto)]

mod answers;
mod play;
mod scan;
mod sheet;

use streams::read_full;

// A script's most bytes.
const SCRIPT_BYTES: usize = 65536;

// The longest store that a script can lend: 2,048 + 24 times 4,096 numbers.
const STORE_NUMBERS: usize = 100352;

fn main(rt: HostRuntime) {
    let mut text = [0u8; SCRIPT_BYTES];
    let many = read_full(&mut rt.stdin(), &mut text);
    let mut store = [0u32; STORE_NUMBERS];
    play::play(&rt, &text[..many], &mut store);
}

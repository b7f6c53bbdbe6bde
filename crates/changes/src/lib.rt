// What an accepted opening, feed or closing changes in a store's numbers, and that numbers so changed keep the calls' promises. No code.
#![tactic(auto)]

// The demands and the marked examples: statements and theorems about the crates below. No code.
#![tactic(auto)]

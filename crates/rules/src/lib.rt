// What each call does at an open desk: definitions, the order of refusals, that a sitting's counts are those of its own strings, and that every complete tree counts the same acts. No code.
#![tactic(auto)]

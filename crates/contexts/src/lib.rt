// Contexts, their code, key and order, and what N(s,a) counts: definitions and laws. No code.
#![tactic(auto)]

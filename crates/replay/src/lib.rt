// The room's machine, and that any run of it replays one sitting after another: definitions and theorems. No code.
#![tactic(auto)]

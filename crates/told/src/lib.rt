// What the functions for C promise, and the number that C gets for an answer that tells nothing else.
#![tactic(auto)]

ghost use Rattle.std.specs.Prelude.{◌≡◌, MatchResult};

// 0 where the call was accepted, or its refusal's number.
pub fn code_of<E: Into<u32>>(answer: Result<(), E>) -> u32
    ensures { MatchResult answer (λ _. result ≡ 0) (λ why. E.converts why result) }
{
    match answer {
        Ok(()) => 0,
        Err(why) => why.into(),
    }
}

// What the program answers to a sitting file and prints, judged from the file alone: the judgement is a definition of specs/, and its refusals are here.
#![tactic(auto)]

ghost use Rattle.std.specs.Prelude.{◌≡◌};
ghost use Rattle.judgement.specs.Refusals.{refusal_told};
ghost use Rattle.judgement.specs.declared.Refusal.TheVariants.{File, Call};

// Why the program reports on no file: the reader refuses it, or a call at the store is refused.
#[derive(Clone, Copy, Debug, PartialEq, Eq)]
pub enum Refusal {
    File(sitting_file::Refusal),
    Call(calls::Refusal),
}

impl From<sitting_file::Refusal> for Refusal {
    ghost from_gives = { λ why given. given ≡ File why };

    fn from(why: sitting_file::Refusal) -> Refusal {
        Refusal::File(why)
    }
}

impl From<calls::Refusal> for Refusal {
    ghost from_gives = { λ why given. given ≡ Call why };

    fn from(why: calls::Refusal) -> Refusal {
        Refusal::Call(why)
    }
}

// A refusal's number in the documents.
impl From<Refusal> for u32 {
    ghost from_gives = { λ why number. number ≡ refusal_told why };

    fn from(why: Refusal) -> u32 {
        match why {
            Refusal::File(fault) => u32::from(fault),
            Refusal::Call(refused) => u32::from(refused),
        }
    }
}

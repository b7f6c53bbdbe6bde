// The door to a desk: what a feed, a report, a chart question and a closing ask before all else.
#![tactic(auto)]

ghost use Rattle.std.specs.Prelude.{◌≡◌, true, MatchResult};
ghost use Rattle.store.specs.Sound.{soundb};
ghost use Rattle.door.specs.Door.{DeskFound, Stops};

use calls::Refusal;
use numbers::DESKS;
use soundness::sound;
use store::layout::DeskNumbers;

// The desk of that number, where the store is sound and the desk is there and open.
pub fn open_desk(store: &[u32], desk: u32) -> Result<usize, Refusal>
    ensures { MatchResult result (λ at. DeskFound store.now desk at) (λ why. Stops store.now desk why) }
{
    if !sound(store) {
        return Err(Refusal::Unsound);
    }
    open_at(store, desk)
}

// The same at a store that has passed its test. That it has stays a clause: no plainer as a type's, since a run of feeds writes the store between two calls
// and would make the type anew for each.
pub fn open_at(store: &[u32], desk: u32) -> Result<usize, Refusal>
    requires { soundb store.now ≡ true }
    ensures { MatchResult result (λ at. DeskFound store.now desk at) (λ why. Stops store.now desk why) }
{
    let at = desk as usize;
    if DESKS <= at {
        return Err(Refusal::NoSuchDesk);
    }
    let numbers = DeskNumbers { store, desk: at };
    if !numbers.is_open() {
        return Err(Refusal::NotOpen);
    }
    Ok(at)
}

// The store: eight desks' sittings in one run of numbers. Its layout, and its making.
#![tactic(auto)]

pub mod layout;

ghost use Rattle.std.specs.Prelude.{◌≡◌};
ghost use Rattle.store.specs.Making.{Makes, refusal_number};

use layout::{HEADER, ROOM};
use numbers::MOST_ROOM;
use records::WIDTH;

// The refusals of document 01 that a making can get.
#[derive(Clone, Copy, Debug, PartialEq, Eq)]
pub enum Refusal {
    RoomOutside,
    StoreShort,
}

// A refusal's number in the document.
impl From<Refusal> for u32 {
    ghost from_gives = { λ why number. number ≡ refusal_number why };

    fn from(why: Refusal) -> u32 {
        match why {
            Refusal::RoomOutside => 17,
            Refusal::StoreShort => 18,
        }
    }
}

// Makes a store for `room` contexts of the numbers lent, whatever they are.
pub fn make(store: &mut [u32], room: u32) -> Result<(), Refusal>
    ensures { Makes room store.old result store.new }
{
    let many = room as usize;
    if many < 1 || MOST_ROOM < many {
        return Err(Refusal::RoomOutside);
    }
    if store.len() < HEADER + WIDTH * many {
        return Err(Refusal::StoreShort);
    }
    store[..HEADER].fill(0);
    store[ROOM] = room;
    Ok(())
}

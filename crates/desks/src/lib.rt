// Opening and closing a desk, and the room question.
#![tactic(auto)]

ghost use Rattle.std.specs.Prelude.{◌≡◌, true, ◌≤◌, ◌<◌, length};
ghost use Rattle.numbers.specs.Limits.{desks};
ghost use Rattle.replay.specs.Machine.{opening, closing, at_desk, room_question, outside_limits};
ghost use Rattle.replay.specs.Room.{left, naming};
ghost use Rattle.store.specs.Layout.{header_size, desk_numbers};
ghost use Rattle.store.specs.Sound.{soundb};
ghost use Rattle.store.specs.Meaning.{meaning};
ghost use Rattle.calls.specs.Refusals.{outcome_of, room_of};
ghost use Rattle.calls.specs.Promises.{Moves, Asks};
ghost use Rattle.changes.specs.Changes.{fresh_desk, Openable, Opened, Closed};
ghost use Rattle.desks.specs.Named.{naming_of};

use calls::Refusal;
use door::open_desk;
use numbers::{DEEPEST, DESKS, FEWEST_SYMBOLS, MOST_SYMBOLS, MOST_WEIGHT};
use recording::remove_desk;
use soundness::{reserved, sound};
use store::layout::{
    DEPTH, DESK_NUMBERS, DESK_SIZE, DeskNumbers, FIRST_DESK, HEADER, Header, OPEN, RESERVE, ROOM,
    SYMBOLS, USED, WEIGHT,
};

// What an opening names.
#[derive(Clone, Copy)]
struct Named {
    alphabet: u32,
    depth: u32,
    weight: u32,
    reservation: u32,
}

// Opens a desk for an alphabet, a depth and a weight in quarters, and reserves it room. Both samples are empty.
// No plainer by the door: its third question is the other way round, that the desk is not open.
pub fn open(
    store: &mut [u32],
    desk: u32,
    alphabet: u32,
    depth: u32,
    weight: u32,
    reservation: u32,
) -> Result<(), Refusal>
    ensures { Moves store.old (at_desk desk (opening (naming alphabet depth weight reservation))) (outcome_of result) store.new }
{
    if !sound(store) {
        return Err(Refusal::Unsound);
    }
    if DESKS <= desk as usize {
        return Err(Refusal::NoSuchDesk);
    }
    let numbers = DeskNumbers {
        store,
        desk: desk as usize,
    };
    if numbers.is_open() {
        return Err(Refusal::AlreadyOpen);
    }
    let named = Named {
        alphabet,
        depth,
        weight,
        reservation,
    };
    if outside_limits(named) {
        return Err(Refusal::OutsideLimits);
    }
    if MOST_WEIGHT < weight {
        return Err(Refusal::WeightOutside);
    }
    open_reserving(store, desk, named)
}

// Refusal 6 or 7, or the opening: what the other refusals left.
fn open_reserving(store: &mut [u32], desk: u32, named: Named) -> Result<(), Refusal>
    requires { Openable store.old desk (naming_of named) }
    ensures { Moves store.old (at_desk desk (opening (naming_of named))) (outcome_of result) store.new }
{
    if named.reservation == 0 || store[ROOM] < named.reservation {
        return Err(Refusal::BadReservation);
    }
    let free = left_in(store);
    if free < named.reservation {
        return Err(Refusal::NoRoom);
    }
    set_up(store, desk as usize, named);
    Ok(())
}

// Closes a desk: its records are taken out, and the room that it reserved is free.
pub fn close(store: &mut [u32], desk: u32) -> Result<(), Refusal>
    ensures { Moves store.old (at_desk desk closing) (outcome_of result) store.new }
{
    open_desk(store, desk)?;
    shut(store, desk);
    Ok(())
}

// How many contexts the room question finds left.
pub fn room_left(store: &[u32]) -> Result<u32, Refusal>
    ensures { Asks store.now room_question (room_of result) }
{
    if sound(store) {
        Ok(left_in(store))
    } else {
        Err(Refusal::Unsound)
    }
}

// Whether an alphabet or a depth is outside its limits. No plainer as one with the limits of a file's values and of the soundness test: each is the test that its
// own promise names.
#[tactic(auto, unfolding(replay::specs::Machine::outside_limits))]
fn outside_limits(named: Named) -> bool
    ensures { result ≡ outside_limits (naming_of named) }
{
    named.alphabet < FEWEST_SYMBOLS || MOST_SYMBOLS < named.alphabet || DEEPEST < named.depth
}

// The room of a sound store, less the reservations of its open desks. That it is sound stays a clause, since an opening, which asks it too, goes on to write it.
fn left_in(store: &[u32]) -> u32
    requires { soundb store.now ≡ true }
    ensures { result ≡ left (meaning store.now) }
{
    // A cast: tried by `u64::from`, and the proof of the subtraction did not close.
    (store[ROOM] as u64 - reserved(Header { store })) as u32
}

// Writes the numbers of a desk that opens. What it asks stays a clause: no `DeskNumbers` can be lent of numbers that are written.
fn set_up(store: &mut [u32], desk: usize, named: Named)
    requires { (header_size ≤ length store.old) × (desk < desks) }
    ensures { Opened store.old store.new desk (naming_of named) }
{
    let from = FIRST_DESK + DESK_SIZE * desk;
    let to = from + DESK_NUMBERS;
    lay_out(&mut store[from..to], named);
}

// The numbers of a desk that opens, over the whole part.
fn lay_out(part: &mut [u32], named: Named)
    requires { length part.old ≡ desk_numbers }
    ensures { part.new ≡ fresh_desk (naming_of named) }
{
    part.fill(0);
    part[OPEN] = 1;
    part[SYMBOLS] = named.alphabet;
    part[DEPTH] = named.depth;
    part[WEIGHT] = named.weight;
    part[RESERVE] = named.reservation;
}

// Takes a desk's records out of a sound store and marks it closed; what it asks stays a clause, as above.
fn shut(store: &mut [u32], desk: u32)
    requires { (soundb store.old ≡ true) × (desk < desks) }
    ensures { Closed store.old store.new desk }
{
    let used = store[USED] as usize;
    let kept = remove_desk(&mut store[HEADER..], used, desk);
    store[USED] = kept as u32;
    store[FIRST_DESK + DESK_SIZE * desk as usize + OPEN] = 0;
}

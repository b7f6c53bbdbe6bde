// The calls of a script, one after another.
ghost use Rattle.std.specs.Prelude.{◌≤◌, length};

use crate::answers::{Refused, Told, say};
use crate::scan::Script;
use crate::sheet::play_report;
use calls::Fed;
use charting::chart;
use desks::{close, open, room_left};
use feeding::{feed, feed_all};
use store::make;

// A call of a script, which names it by a number.
#[derive(Clone, Copy)]
enum Call {
    Make,
    Open,
    Feed,
    Close,
    Room,
    Report,
    Chart,
    Spoil,
    FeedAll,
}

// A number that no call has.
#[derive(Drop)]
struct NoCall;

impl TryFrom<u32> for Call {
    type Error = NoCall;

    fn try_from(opcode: u32) -> Result<Call, NoCall> {
        match opcode {
            0 => Ok(Call::Make),
            1 => Ok(Call::Open),
            2 => Ok(Call::Feed),
            3 => Ok(Call::Close),
            4 => Ok(Call::Room),
            5 => Ok(Call::Report),
            6 => Ok(Call::Chart),
            7 => Ok(Call::Spoil),
            8 => Ok(Call::FeedAll),
            _ => Err(NoCall),
        }
    }
}

// The most symbols of one run of feeds.
const RUN_SYMBOLS: usize = 4096;

// Plays the whole script. Before the first making its calls lend all the numbers. A number that no call has ends the script.
pub(crate) fn play(rt: &impl Print, text: &[u8], store: &mut [u32]) {
    let mut script = Script::new(text);
    let mut lent = store.len();
    // No `for`: a call reads its own numbers from the same script.
    while let Some(opcode) = script.next() {
        let Ok(call) = Call::try_from(opcode) else {
            return;
        };
        lent = play_call(rt, call, &mut script, store, lent);
    }
}

// Plays a call, whose numbers follow in the script. `store` and `lent` stay two: what may not change, since a spoil reaches past what calls lend.
// The calls after it lend as many numbers as answered.
fn play_call(
    rt: &impl Print,
    call: Call,
    script: &mut Script<'_>,
    store: &mut [u32],
    lent: usize,
) -> usize
    requires { lent ≤ length store.old }
    ensures lent { result ≤ length store.new }
    ensures read { length script.new.rest.now ≤ length script.old.rest.now }
{
    let part = &mut store[..lent];
    let answer = match call {
        Call::Make => return play_make(rt, script.numbers(), store, lent),
        Call::Report => {
            play_report(rt, script.numbers(), part);
            return lent;
        }
        Call::Open => play_open(script.numbers(), part),
        Call::Feed => play_feed(script.numbers(), part),
        Call::Close => play_close(script.number(), part),
        Call::Room => play_room(part),
        Call::Chart => play_chart(script.numbers(), part),
        Call::Spoil => play_spoil(script.numbers(), store),
        Call::FeedAll => play_feed_all(script, part),
    };
    say(rt, answer);
    lent
}

// A making lends as many of the numbers as it names; where it is accepted, so do the calls after it.
fn play_make(rt: &impl Print, numbers: [u32; 2], store: &mut [u32], lent: usize) -> usize
    requires { lent ≤ length store.old }
    ensures { result ≤ length store.new }
{
    let [room, length] = numbers;
    let many = store.len().min(length as usize);
    match make(&mut store[..many], room) {
        Ok(()) => {
            say(rt, Ok(Told::Done));
            many
        }
        Err(why) => {
            say(rt, Err(why.into()));
            lent
        }
    }
}

// Sets one of the numbers behind the store's back.
fn play_spoil([place, number]: [u32; 2], store: &mut [u32]) -> Result<Told, Refused> {
    let place = place as usize;
    if place < store.len() {
        store[place] = number;
    }
    Ok(Told::Done)
}

fn play_open(numbers: [u32; 5], store: &mut [u32]) -> Result<Told, Refused> {
    let [desk, alphabet, depth, weight, reservation] = numbers;
    open(store, desk, alphabet, depth, weight, reservation)?;
    Ok(Told::Done)
}

fn play_feed([desk, sample, symbol]: [u32; 3], store: &mut [u32]) -> Result<Told, Refused> {
    feed(store, desk, sample, symbol)?;
    Ok(Told::Done)
}

fn play_close(desk: u32, store: &mut [u32]) -> Result<Told, Refused> {
    close(store, desk)?;
    Ok(Told::Done)
}

fn play_room(store: &[u32]) -> Result<Told, Refused> {
    let left = room_left(store)?;
    Ok(Told::Room(left))
}

fn play_chart(numbers: [u32; 4], store: &[u32]) -> Result<Told, Refused> {
    let [desk, length, code, symbol] = numbers;
    let answer = chart(store, desk, length, code, symbol)?;
    Ok(Told::Chart(answer))
}

// A run of none makes no feed, so that none is refused.
fn play_feed_all(script: &mut Script<'_>, store: &mut [u32]) -> Result<Told, Refused>
    ensures { length script.new.rest.now ≤ length script.old.rest.now }
{
    let [desk, sample, count] = script.numbers::<3>();
    let mut symbols = [0u8; RUN_SYMBOLS];
    let run = &mut symbols[..RUN_SYMBOLS.min(count as usize)];
    script.symbols(run);
    if run.is_empty() {
        return Ok(Told::Fed(Fed {
            accepted: 0,
            ending: Ok(()),
        }));
    }
    Ok(Told::Fed(feed_all(store, desk, sample, run)))
}

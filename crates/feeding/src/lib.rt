// Feeding at a store: one symbol, and a run of them after one soundness test.
#![tactic(auto)]

ghost use Rattle.std.specs.Prelude.{◌≡◌, true};
ghost use Rattle.replay.specs.Machine.{at_desk, asking};
ghost use Rattle.store.specs.Sound.{soundb};
ghost use Rattle.rules.specs.Rules.{feed};
ghost use Rattle.calls.specs.Refusals.{outcome_of};
ghost use Rattle.calls.specs.Promises.{Moves};
ghost use Rattle.changes.specs.FedStore.{recent_at};
ghost use Rattle.calls.specs.Run.{Runs};
ghost use Rattle.recording.specs.Feeds.{sample_fed};
ghost use Rattle.feeding.specs.Feeds.{call_of, JudgedFeed, CountedFeed};

use calls::{Fed, Refusal};
use door::open_at;
use entering::{is_counted, is_past, recent_of, seek_in, write_feed, write_header};
use numbers::LONGEST;
use recording::Feed;
use records::Sample;
use soundness::sound;
use store::layout::DeskNumbers;

// One more symbol of a sample at a desk. What may not change: `Moves` and `Runs` promise an answer to every number of a sample, and C hands numbers on, so it
// becomes a `Sample` only where `feed_sound` tests it.
pub fn feed(store: &mut [u32], desk: u32, sample: u32, symbol: u32) -> Result<(), Refusal>
    ensures { Moves store.old (at_desk desk (asking (feed sample symbol))) (outcome_of result) store.new }
{
    if sound(store) {
        return feed_sound(store, desk, sample, symbol);
    }
    Err(Refusal::Unsound)
}

// A run of feeds to one sample, after one soundness test: it stops at the first that is refused.
pub fn feed_all(store: &mut [u32], desk: u32, sample: u32, symbols: &[u8]) -> Fed
    ensures { Runs store.old desk sample symbols.now result.accepted (outcome_of result.ending) store.new }
{
    if sound(store) {
        return feed_run(store, desk, sample, symbols);
    }
    Fed {
        accepted: 0,
        ending: Err(Refusal::Unsound),
    }
}

// The run at a store that has passed its test. That it has stays a clause, here and below: no plainer as a type's, which would hold only until a feed is written.
fn feed_run(store: &mut [u32], desk: u32, sample: u32, symbols: &[u8]) -> Fed
    requires { soundb store.old ≡ true }
    ensures { Runs store.old desk sample symbols.now result.accepted (outcome_of result.ending) store.new }
{
    for (done, &symbol) in symbols.iter().enumerate() {
        if let Err(why) = feed_sound(store, desk, sample, u32::from(symbol)) {
            return Fed {
                accepted: done,
                ending: Err(why),
            };
        }
    }
    Fed {
        accepted: symbols.len(),
        ending: Ok(()),
    }
}

// One feed at a store that has passed its test: the refusals in the table's order.
fn feed_sound(store: &mut [u32], desk: u32, sample: u32, symbol: u32) -> Result<(), Refusal>
    requires { soundb store.old ≡ true }
    ensures { Moves store.old (at_desk desk (asking (feed sample symbol))) (outcome_of result) store.new }
{
    let at = open_at(store, desk)?;
    let Ok(which) = Sample::try_from(sample) else {
        return Err(Refusal::NotOfSitting);
    };
    let numbers = DeskNumbers { store, desk: at };
    if numbers.symbols() <= symbol {
        return Err(Refusal::NotOfSitting);
    }
    if LONGEST <= numbers.size(which) {
        return Err(Refusal::SampleFull);
    }
    let feed = Feed {
        desk,
        sample: which,
        symbol,
    };
    feed_judged(store, feed)
}

// What the other refusals left of a feed: where its place is not counted, the header alone is written.
// What these three ask of the store stays in their clauses: no plainer as a type's, which would hold only until the store is written.
fn feed_judged(store: &mut [u32], feed: Feed) -> Result<(), Refusal>
    requires { JudgedFeed store.old feed }
    ensures { Moves store.old (call_of feed) (outcome_of result) store.new }
{
    if is_counted(store, feed.desk, feed.sample) {
        return feed_counted(store, feed);
    }
    write_header(store, feed);
    Ok(())
}

// A feed that is counted, after the symbols that it follows are copied.
fn feed_counted(store: &mut [u32], feed: Feed) -> Result<(), Refusal>
    requires { CountedFeed store.old feed }
    ensures { Moves store.old (call_of feed) (outcome_of result) store.new }
{
    let latest = recent_of(store, feed.desk, feed.sample);
    let symbols = latest.symbols;
    let many = latest.many;
    feed_after(store, feed, &symbols[..many])
}

// Refusal 10, or the feed of a symbol that follows `recent` and is counted.
fn feed_after(store: &mut [u32], feed: Feed, recent: &[u32]) -> Result<(), Refusal>
    requires { CountedFeed store.old feed × (recent.now ≡ recent_at store.old feed.desk (sample_fed feed)) }
    ensures { Moves store.old (call_of feed) (outcome_of result) store.new }
{
    let sought = seek_in(store, feed.desk, recent);
    if is_past(store, feed.desk, recent, sought) {
        return Err(Refusal::PastReservation);
    }
    write_feed(store, feed, recent, sought);
    Ok(())
}

// The chart question at a desk of a store: a symbol's share in the context that a length and a code name.
#![tactic(auto)]

ghost use Rattle.std.specs.Prelude.{◌≡◌, ◌-◌, ◌^◌, ◌≤◌, ◌<◌};
ghost use Rattle.numbers.specs.Limits.{deepest, desks};
ghost use Rattle.records.specs.Records.{lookup};
ghost use Rattle.records.specs.Held.{count_table};
ghost use Rattle.chart.specs.Answer.{chart_in};
ghost use Rattle.replay.specs.Machine.{at_desk, asking};
ghost use Rattle.store.specs.Layout.{records_in};
ghost use Rattle.rules.specs.Rules.{charting};
ghost use Rattle.calls.specs.Promises.{Asks};
ghost use Rattle.calls.specs.Refusals.{charted_of};
ghost use Rattle.charting.specs.Naming.{named};
ghost use Rattle.charting.specs.Reading.{Readable};

use calls::Refusal;
use chart::{Chart, chart_of};
use door::open_desk;
use records::{DESK_SPAN, Held};
use store::layout::{DeskNumbers, HEADER, USED};

// What the samples at a desk say of a symbol in the context of that length and code. What may not change: what it is given is named in docs/PROMISES.md.
pub fn chart(
    store: &[u32],
    desk: u32,
    length: u32,
    code: u32,
    symbol: u32,
) -> Result<Chart, Refusal>
    ensures { Asks store.now (at_desk desk (asking (charting length code symbol))) (charted_of result) }
{
    open_desk(store, desk)?;
    let numbers = DeskNumbers {
        store,
        desk: desk as usize,
    };
    let symbols = numbers.symbols();
    if symbols <= symbol || numbers.depth() < length {
        return Err(Refusal::NotOfSitting);
    }
    let key = key_of(symbols, desk, length, code).ok_or(Refusal::NotOfSitting)?;
    Ok(chart_under(store, key, symbol))
}

// The key of the context at a desk that a length and a code name. Desk, length and code stay three, as `chart` gets them, and that the desk is below 8 a clause:
// no plainer as a type, since the key is worked out with no store.
// The code's digits are the symbols, the lowest the most recent.
fn key_of(symbols: u32, desk: u32, length: u32, code: u32) -> Option<u32>
    requires { (desk < desks) × (length ≤ deepest) }
    ensures { result ≡ named symbols desk length code }
{
    let mut key = desk * DESK_SPAN;
    let mut rest = code;
    for newer in 0..length {
        let digit = rest % 8;
        if symbols <= digit {
            return None;
        }
        key += digit * eights_of(newer) + 1;
        rest /= 8;
    }
    if rest == 0 { Some(key) } else { None }
}

// No plainer without this function: it says the records' power of eight in the words of a code's digits.
// The power of eight at which a symbol stands in a key that has so many more recent ones: 8^6 for the most recent, and an eighth for each place back.
fn eights_of(newer: u32) -> u32
    requires { newer < deepest }
    ensures { result ≡ 8 ^ (deepest - newer) }
{
    records::eights_of(newer + 1)
}

// What the counts under a key say of a symbol.
fn chart_under(store: &[u32], key: u32, symbol: u32) -> Chart
    requires { Readable store.now key symbol }
    ensures { result ≡ chart_in (count_table (lookup key (records_in store.now))) symbol }
{
    let n = store[USED] as usize;
    let numbers = &store[HEADER..];
    let held = Held { numbers, n };
    chart_of(held.table_of(key), symbol)
}

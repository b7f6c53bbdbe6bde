// What a context costs and loses as one of each kind. A loss is a cost less a fit, and never below 0.
// `logs` are logarithms that the caller lends.
#![tactic(auto)]

ghost use Rattle.std.specs.Prelude.{◌≡◌, ◌+◌, ◌*◌, ◌-◌, ◌≤◌, ◌<◌};
ghost use Rattle.numbers.specs.Limits.{most_symbols, most_weight, most_counted, top_log};
ghost use Rattle.logarithm.specs.Logarithm.{L};
ghost use Rattle.contexts.specs.Sitting.{first, second, eight, row_in, sum_of};
ghost use Rattle.estimate.specs.Trees.{shared};
ghost use Rattle.estimate.specs.Score.{fit_times, quarter, cost};
ghost use Rattle.estimate.specs.Table.{counts_in, CostsOf, most_cost, most_spread, LossesOf};
ghost use Rattle.estimate.specs.Adding.{SumsOf, Addable, SumsAnd, SumOf, SumFits};

use logarithm::LentLogs;
use std::ops::Add;

// How many times a fit is taken.
const FIT_TIMES: u64 = 8;

// A number for each kind of context: shared, the first's own, the second's own.
#[derive(Clone, Copy, Debug, PartialEq, Eq)]
pub struct ByKind {
    pub shared: u64,
    pub first: u64,
    pub second: u64,
}

// Kind by kind.
impl Add for ByKind {
    type Output = ByKind;

    ghost can_add = { SumFits };

    ghost add_gives = { SumOf };

    fn add(self, other: ByKind) -> ByKind {
        ByKind {
            shared: self.shared + other.shared,
            first: self.first + other.first,
            second: self.second + other.second,
        }
    }
}

// What a context of each kind costs at a weight, where the samples have n and m symbols.
pub fn costs_of(logs: LentLogs, weight: u32, symbols: u32, n: u32, m: u32) -> ByKind
    requires { (weight ≤ most_weight) × (1 ≤ symbols) × (symbols ≤ most_symbols) × (n + m ≤ most_counted) }
    ensures { CostsOf weight symbols n m result }
{
    ByKind {
        shared: cost_of(logs, weight, symbols, n + m),
        first: cost_of(logs, weight, symbols, n),
        second: cost_of(logs, weight, symbols, m),
    }
}

// The losses of the context with these counts, where a context of each kind costs this.
pub fn losses_of(logs: LentLogs, counts: [[u32; 8]; 2], costs: ByKind) -> ByKind
    requires { (sum_of (row_in counts first) + sum_of (row_in counts second) ≤ most_counted) × (costs.shared ≤ most_cost) × (costs.first ≤ most_cost) × (costs.second ≤ most_cost) }
    ensures { LossesOf counts costs result }
{
    let sums = sums_of(logs, counts);
    let terms = sums.terms;
    costs
        + ByKind {
            shared: spread_of(logs, sums.first + sums.second, terms.shared),
            first: spread_of(logs, sums.first, terms.first),
            second: spread_of(logs, sums.second, terms.second),
        }
}

// The counts of both samples together. Document 01 wants counts as a table by value, so what they add up to stays a clause, here and where they are handed on.
// A `for`: tried by `array::from_fn`, of which two goals about closures did not close.
pub fn added(counts: [[u32; 8]; 2]) -> [u32; 8]
    requires { sum_of (row_in counts first) + sum_of (row_in counts second) ≤ most_counted }
    ensures { result ≡ eight (counts_in counts shared) }
{
    let mut both = counts[0];
    for a in 0..8 {
        both[a] += counts[1][a];
    }
    both
}

fn cost_of(logs: LentLogs, weight: u32, symbols: u32, n: u32) -> u64
    requires { (weight ≤ most_weight) × (1 ≤ symbols) × (symbols ≤ most_symbols) × (n ≤ most_counted) }
    ensures { result ≡ cost weight symbols n }
{
    u64::from(weight) * quarter_of(logs, symbols, n)
}

// What a context costs for each quarter of the weight. The limits of A and of a length stay clauses: no plainer as types of single numbers that callers have at hand.
fn quarter_of(logs: LentLogs, symbols: u32, n: u32) -> u64
    requires { (1 ≤ symbols) × (symbols ≤ most_symbols) × (n ≤ most_counted) }
    ensures { (result ≡ quarter symbols n) × (result ≤ most_symbols * top_log) }
{
    u64::from(symbols - 1) * u64::from(logs.log_at(n))
}

// The fit of counts with this total and these terms, with its sign turned.
fn spread_of(logs: LentLogs, total: u32, terms: u64) -> u64
    requires { (total ≤ most_counted) × (terms ≤ total * L total) }
    ensures { (result ≡ fit_times * (total * L total - terms)) × (result ≤ most_spread) }
{
    FIT_TIMES * (term_of(logs, total) - terms)
}

// What the counts of a context add up to in each sample, and what their terms c·L(c) do: of each sample, and of both together.
#[derive(Clone, Copy)]
pub struct Sums {
    pub first: u32,
    pub second: u32,
    pub terms: ByKind,
}

// The sums over all symbols.
fn sums_of(logs: LentLogs, counts: [[u32; 8]; 2]) -> Sums
    requires { sum_of (row_in counts first) + sum_of (row_in counts second) ≤ most_counted }
    ensures { SumsOf most_symbols counts result }
{
    let mut sums = Sums {
        first: 0,
        second: 0,
        terms: ByKind {
            shared: 0,
            first: 0,
            second: 0,
        },
    };
    for a in 0..8 {
        sums = and_symbol(logs, sums, counts[0][a], counts[1][a]);
    }
    sums
}

// One symbol more, with these counts. Where both are 0 there is nothing to add.
fn and_symbol(logs: LentLogs, sums: Sums, x: u32, y: u32) -> Sums
    requires { Addable sums x y }
    ensures { SumsAnd sums x y result }
{
    if x + y == 0 {
        return sums;
    }
    let terms = ByKind {
        shared: term_of(logs, x + y),
        first: term_of(logs, x),
        second: term_of(logs, y),
    };
    Sums {
        first: sums.first + x,
        second: sums.second + y,
        terms: sums.terms + terms,
    }
}

// A count times its logarithm.
fn term_of(logs: LentLogs, c: u32) -> u64
    requires { c ≤ most_counted }
    ensures { (result ≡ c * L c) × (result ≤ most_counted * top_log) }
{
    u64::from(c) * u64::from(logs.log_at(c))
}

// The chart answer from the counts of one context: a symbol's share in each sample, and their gap.
#![tactic(auto)]

ghost use Rattle.std.specs.Prelude.{◌≡◌, ◌≤◌};
ghost use Rattle.numbers.specs.Limits.{most_counted};
ghost use Rattle.contexts.specs.Sitting.{sum_of};
ghost use Rattle.chart.specs.Share.{share};
ghost use Rattle.chart.specs.Answer.{point_of, answer, chart_in, Chartable};

// The two shares, and the first less the second, rounded once.
#[derive(Clone, Copy, Debug, PartialEq)]
pub struct Point {
    pub first: f64,
    pub second: f64,
    pub gap: f64,
}

// What the samples that saw the context say of the symbol.
#[derive(Clone, Copy, Debug, PartialEq)]
pub enum Chart {
    Neither,
    First(f64),
    Second(f64),
    Both(Point),
}

// The answer for a symbol in the context with these counts.
pub fn chart_of(counts: [[u32; 8]; 2], symbol: u32) -> Chart
    requires { Chartable counts symbol }
    ensures { result ≡ chart_in counts symbol }
{
    let first = counts[0];
    let second = counts[1];
    let a = symbol as usize;
    compared(first[a], total_of(first), second[a], total_of(second))
}

// By the count c and the total t in each sample. A sample with a total of 0 did not see the context.
fn compared(c1: u32, t1: u32, c2: u32, t2: u32) -> Chart
    ensures { result ≡ answer c1 t1 c2 t2 }
{
    match (t1, t2) {
        (0, 0) => Chart::Neither,
        (0, _) => Chart::Second(share_of(c2, t2)),
        (_, 0) => Chart::First(share_of(c1, t1)),
        _ => Chart::Both(point_of(share_of(c1, t1), share_of(c2, t2))),
    }
}

fn point_of(first: f64, second: f64) -> Point
    ensures { result ≡ point_of first second }
{
    Point {
        first,
        second,
        gap: first - second,
    }
}

// Two exact casts and one division.
fn share_of(count: u32, total: u32) -> f64
    ensures { result ≡ share count total }
{
    (count as f64) / (total as f64)
}

// What a sample's eight counts add up to.
fn total_of(row: [u32; 8]) -> u32
    requires { sum_of row ≤ most_counted }
    ensures { result ≡ sum_of row }
{
    row.iter().sum()
}

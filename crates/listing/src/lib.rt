// The rows of a desk's report, listed from the root to the leaves by the decisions that a weighing kept beside the records.
// `logs` are logarithms that the caller lends, only handed on to `estimate`.
#![tactic(auto)]

ghost use Rattle.std.specs.Prelude.{◌≡◌, not, ◌&&◌, ◌≤◌, length};
ghost use Rattle.contexts.specs.Keys.{context_of};
ghost use Rattle.records.specs.Records.{records, lookup};
ghost use Rattle.records.specs.Held.{count_table};
ghost use Rattle.rows.specs.Members.{number};
ghost use Rattle.rows.specs.Kinds.{kind_told};
ghost use Rattle.listing.specs.Plans.{goes_on, own_plan, plan_by};
ghost use Rattle.listing.specs.Writing.{WroteAt, numbers_if, numbers_here, Roomy, rows_from, CanWrite, CanReadMarks, WroteNumbers, kept_mark, kept_plan, CanReport, Listed};

use estimate::ByKind;
use logarithm::LentLogs;
use numbers::ROW_WIDTH;
use records::{DESK_SPAN, Held};
use rows::Kind;
use weighing::{Choice, Desk, Mark, leaf_mark};

// Writes the rows of a desk's report at the beginning of the sheet, by the decisions that `weigh` kept beside the records.
pub fn write_rows(logs: LentLogs, held: Held, desk: Desk, kept: &[u8], sheet: &mut [u32])
    requires { CanReport desk held.n held.numbers.now kept.now sheet.old }
    ensures { Listed desk held.entry.n held.entry.numbers.now sheet.old sheet.new }
{
    let costs = estimate::costs_of(logs, desk.weight, desk.symbols, desk.n, desk.m);
    let way = Way {
        joint: true,
        first: false,
        second: false,
    };
    let key = desk.number * DESK_SPAN;
    let root = Spot {
        key,
        span: DESK_SPAN,
        left: desk.depth,
        code: 0,
        power: 1,
        way,
    };
    let listing = Listing {
        held,
        kept,
        desk,
        costs,
    };
    let _ = listing.write_from(sheet, root, 0);
}

// Which members are wanted at a context and below it: those of both trees together, or those of the own trees that still go on.
// No plainer as an enum: it is which of the three are wanted, as `Plan` is which rows stand, and `goes_on` asks for any.
#[derive(Clone, Copy)]
pub struct Way {
    pub joint: bool,
    pub first: bool,
    pub second: bool,
}

// Which rows stand at a context, and what is wanted of its children.
#[derive(Clone, Copy)]
pub struct Plan {
    pub shared: bool,
    pub first: bool,
    pub second: bool,
    pub next: Way,
}

// A context with its code, 8 to the power of its length, and what is wanted of it.
#[derive(Clone, Copy)]
pub struct Spot {
    pub key: u32,
    pub span: u32,
    pub left: u32,
    pub code: u32,
    pub power: u32,
    pub way: Way,
}

// What is wanted of the children, and the next number of the sheet.
#[derive(Clone, Copy)]
pub struct Step {
    pub way: Way,
    pub to: usize,
}

// What stays the same all through a listing: the records in use, the decisions that a weighing kept beside them, the desk, and what a context
// of each kind costs.
#[derive(Clone, Copy)]
struct Listing<'a> {
    held: Held<'a>,
    kept: &'a [u8],
    desk: Desk,
    costs: ByKind,
    ghost readable: { CanReadMarks held.n kept.now costs },
}

impl Listing<'_> {
    // Writes the rows at a context and below it; the place after them.
    fn write_from(&self, sheet: &mut [u32], spot: Spot, to: usize) -> usize
        requires { CanWrite self.now.desk self.now.costs self.now.held.n self.now.held.numbers.now self.now.kept.now (length sheet.old) (context_of spot.key) spot to }
        ensures { WroteAt sheet.old sheet.new to (rows_from self.now.desk self.now.held.n self.now.held.numbers.now (context_of spot.key) spot) result }
    {
        let step = self.write_here(sheet, spot, self.desk.depth - spot.left, to);
        let way = step.way;
        let mut past = step.to;
        if !goes_on(way) {
            return past;
        }
        let span = spot.span / 8;
        let mut key = spot.key + 1;
        let mut code = spot.code;
        for _ in 0..self.desk.symbols {
            let left = spot.left - 1;
            let power = 8 * spot.power;
            let child = Spot {
                key,
                span,
                left,
                code,
                power,
                way,
            };
            past = self.write_from(sheet, child, past);
            key += span;
            code += spot.power;
        }
        past
    }

    // The rows at one context, and what is wanted of its children.
    fn write_here(&self, sheet: &mut [u32], spot: Spot, len: u32, to: usize) -> Step
        requires { Roomy (length sheet.old) to (length (numbers_here (kept_plan self.now.held.n self.now.held.numbers.now self.now.kept.now self.now.costs spot) len spot.code (count_table (lookup spot.key (records self.now.held.n self.now.held.numbers.now))))) (count_table (lookup spot.key (records self.now.held.n self.now.held.numbers.now))) }
        ensures { WroteNumbers self.now.held.n self.now.held.numbers.now self.now.kept.now self.now.costs sheet.old sheet.new spot len to result }
    {
        let plan = plan_of(spot.way, Mark::from(self.mark_of(spot.key)));
        let counts = self.held.table_of(spot.key);
        let here = Here {
            len,
            code: spot.code,
            counts,
        };
        Step {
            way: plan.next,
            to: put_here(sheet, to, plan, &here),
        }
    }

    // The decision at a context: the one kept beside its record, or that of a leaf that costs this where it is not held.
    fn mark_of(&self, key: u32) -> u8
        ensures { result ≡ kept_mark self.now.held.n self.now.held.numbers.now self.now.kept.now self.now.costs key }
    {
        let at = self.held.place_of(key);
        if self.held.stands(at, key) {
            return self.kept[at];
        }
        leaf_mark(self.costs)
    }
}

// What all rows at one context have: its length, its code, and its counts.
#[derive(Clone, Copy)]
struct Here {
    len: u32,
    code: u32,
    counts: [[u32; 8]; 2],
}

// The rows that a plan has at one context; the place after them.
fn put_here(sheet: &mut [u32], to: usize, plan: Plan, here: &Here) -> usize
    requires { Roomy (length sheet.old) to (length (numbers_here plan here.now.len here.now.code here.now.counts)) here.now.counts }
    ensures { WroteAt sheet.old sheet.new to (numbers_here plan here.now.len here.now.code here.now.counts) result }
{
    let a = put_if(sheet, to, plan.shared, Kind::Shared, here);
    let b = put_if(sheet, a, plan.first, Kind::First, here);
    put_if(sheet, b, plan.second, Kind::Second, here)
}

// A row, where it is wanted; the place after it.
fn put_if(sheet: &mut [u32], to: usize, on: bool, kind: Kind, here: &Here) -> usize
    requires { Roomy (length sheet.old) to (length (numbers_if on (number (kind_told kind)) here.now.len here.now.code here.now.counts)) here.now.counts }
    ensures { WroteAt sheet.old sheet.new to (numbers_if on (number (kind_told kind)) here.now.len here.now.code here.now.counts) result }
{
    if !on {
        return to;
    }
    let past = to + ROW_WIDTH;
    rows::put_row(
        &mut sheet[to..past],
        u32::from(kind),
        here.len,
        here.code,
        here.counts,
    );
    past
}

// The rows that a decision gives, and what is wanted of the children.
fn plan_of(way: Way, mark: Mark) -> Plan
    ensures { result ≡ plan_by way mark }
{
    if !way.joint {
        return own_plan(way.first, way.second, mark.first, mark.second);
    }
    match mark.joint {
        Choice::Shared => Plan {
            shared: true,
            first: false,
            second: false,
            next: Way {
                joint: false,
                first: false,
                second: false,
            },
        },
        Choice::Separate => own_plan(true, true, mark.first, mark.second),
        Choice::Split => Plan {
            shared: false,
            first: false,
            second: false,
            next: Way {
                joint: true,
                first: false,
                second: false,
            },
        },
    }
}

// Own trees that still go on, m and n, of which p and q split.
fn own_plan(m: bool, n: bool, p: bool, q: bool) -> Plan
    ensures { result ≡ own_plan m n p q }
{
    Plan {
        shared: false,
        first: m && !p,
        second: n && !q,
        next: Way {
            joint: false,
            first: m && p,
            second: n && q,
        },
    }
}

// Whether anything is wanted.
fn goes_on(way: Way) -> bool
    ensures { result ≡ goes_on way }
{
    way.joint || way.first || way.second
}

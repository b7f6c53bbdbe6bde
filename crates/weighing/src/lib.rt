// The weighing of a desk's records, from the leaves to the root: what its trees lose at least, how many rows its report has, and the
// decisions, kept beside the records. `logs` are logarithms that the caller lends, only handed on to `estimate`.
#![tactic(auto)]

ghost use Rattle.std.specs.Prelude.{◌≡◌, cond, not, ◌+◌, ◌≤◌, ◌<◌, ◌^◌, min, length, leb};
ghost use Rattle.numbers.specs.Sum.{one};
ghost use Rattle.contexts.specs.Keys.{context_of};
ghost use Rattle.estimate.specs.Table.{LossesOf};
ghost use Rattle.records.specs.Held.{record_at, count_table};
ghost use Rattle.weighing.specs.Trees.{choice};
ghost use Rattle.weighing.specs.Marks.{number_of_choice, mark_number, choice_in, mark_in};
ghost use Rattle.weighing.specs.Weighs.{CanWeigh, Weighs};
ghost use Rattle.weighing.specs.Visit.{Countable, CanVisit, Visited, Small, LeafOf, LeafHere, SplitOf, SplitHere, NoneOf, CanAdd, ChildOf, CanAddUnseen, UnseenOf, leaf_mark, split_mark};

use estimate::ByKind;
use logarithm::LentLogs;
use records::{DESK_SPAN, Held};

// An open desk: its number, A, D, the weight and the samples' lengths.
#[derive(Clone, Copy, Debug, PartialEq, Eq)]
pub struct Desk {
    pub number: u32,
    pub symbols: u32,
    pub depth: u32,
    pub weight: u32,
    pub n: u32,
    pub m: u32,
}

// What the trees of a desk's sitting lose at least, each alone and both together, and how many rows its report has.
#[derive(Clone, Copy, Debug, PartialEq, Eq)]
pub struct Least {
    pub first: u64,
    pub second: u64,
    pub joint: u64,
    pub rows: u64,
}

// Weighs the trees of a desk over the records in use, and keeps the decision at each of its contexts beside the record.
// What may not change: callers lend bytes, and `Decided` promises decisions as numbers, so `kept` is no slice of `Mark`.
pub fn weigh(logs: LentLogs, held: Held, desk: Desk, kept: &mut [u8]) -> Least
    requires { CanWeigh desk held.n held.numbers.now kept.old }
    ensures { Weighs desk held.entry.n held.entry.numbers.now kept.old kept.new result }
{
    let costs = estimate::costs_of(logs, desk.weight, desk.symbols, desk.n, desk.m);
    let walk = Walk { held, desk, costs };
    let key = desk.number * DESK_SPAN;
    let root = Context {
        key,
        span: DESK_SPAN,
        left: desk.depth,
    };
    let at = held.place_of(key);
    let w = if held.stands(at, key) {
        walk.visit(logs, kept, root, at)
    } else {
        as_leaf(costs, at)
    };
    let least = w.least;
    let rows = w.rows;
    Least {
        first: least.first,
        second: least.second,
        joint: least.shared,
        rows: rows.shared,
    }
}

// A context: its key, how many keys its block has, and how many symbols are left below it.
#[derive(Clone, Copy)]
pub struct Context {
    pub key: u32,
    pub span: u32,
    pub left: u32,
}

// What each tree at a context loses at least, how many members it has, and the place of the first record past the context's block.
// Under `shared` stand both trees together.
#[derive(Clone, Copy)]
pub struct Weighed {
    pub least: ByKind,
    pub rows: ByKind,
    pub next: usize,
}

// What stands at a context: a shared leaf, two separate trees, or a split of both.
#[derive(Clone, Copy, Debug, PartialEq, Eq)]
pub enum Choice {
    Shared,
    Separate,
    Split,
}

// The decision at a context: what stands there, and which own trees split.
#[derive(Clone, Copy, Debug, PartialEq, Eq)]
pub struct Mark {
    pub joint: Choice,
    pub first: bool,
    pub second: bool,
}

// 0, 1 or 2.
impl From<Choice> for u8 {
    ghost from_gives = { λ choice result. result ≡ number_of_choice choice };

    fn from(choice: Choice) -> u8 {
        match choice {
            Choice::Shared => 0,
            Choice::Separate => 1,
            Choice::Split => 2,
        }
    }
}

// The number that is kept beside a record for a decision ..
impl From<Mark> for u8 {
    ghost from_gives = { λ mark result. result ≡ mark_number mark };

    fn from(mark: Mark) -> u8 {
        u8::from(mark.joint) + 3 * u8::from(mark.first) + 6 * u8::from(mark.second)
    }
}

// .. and read back.
impl From<u8> for Mark {
    ghost from_gives = { λ number result. result ≡ mark_in number };

    fn from(number: u8) -> Mark {
        let first = number / 3 % 2 == 1;
        let second = number / 6 == 1;
        let joint = choice_in(number);
        Mark {
            joint,
            first,
            second,
        }
    }
}

// Of a decision's number. No `From`, since it reads a part of that number alone.
fn choice_in(number: u8) -> Choice
    ensures { result ≡ choice_in number }
{
    match number % 3 {
        0 => Choice::Shared,
        1 => Choice::Separate,
        _ => Choice::Split,
    }
}

// What stays the same all through a walk: the records in use, the desk, and what a context of each kind costs. The logarithms that are lent go beside it: where
// a walk kept them, the library for C copied them by a `memcpy` from outside.
#[derive(Clone, Copy)]
struct Walk<'a> {
    held: Held<'a>,
    desk: Desk,
    costs: ByKind,
}

impl Walk<'_> {
    // The trees at a held context, whose place the walk has come to. A child that is not held is answered without a call.
    // The decision at each record of the context's block is kept beside it.
    fn visit(&self, logs: LentLogs, kept: &mut [u8], here: Context, at: usize) -> Weighed
        requires { CanVisit self.now.desk self.now.costs self.now.held.n self.now.held.numbers.now kept.old here at }
        ensures { Visited self.now.desk self.now.held.n self.now.held.numbers.now (context_of here.key) here.left at kept.old kept.new result }
    {
        let own = self.losses_at(logs, at);
        if here.left == 0 {
            return leaf_here(kept, at, own);
        }
        let span = here.span / 8;
        let mut key = here.key + 1;
        let mut children = none_yet(at + 1);
        for _ in 0..self.desk.symbols {
            let next = children.next;
            if self.held.stands(next, key) {
                let left = here.left - 1;
                let child = Context { key, span, left };
                children = and_child(children, self.visit(logs, kept, child, next));
            } else {
                children = and_unseen(children, self.costs);
            }
            key += span;
        }
        split_here(kept, at, own, children)
    }

    // The losses of the context of the record at a place.
    fn losses_at(&self, logs: LentLogs, at: usize) -> ByKind
        requires { Countable self.now.held.numbers.now at self.now.costs }
        ensures { LossesOf (count_table (record_at at self.now.held.numbers.now)) self.now.costs result }
    {
        estimate::losses_of(logs, records::counts_at(self.held.numbers, at), self.costs)
    }
}

// The context of the record at a place is a leaf with these losses: its decision is kept there, and the walk goes on behind it. That losses are `Small` stays a
// clause, here and below: no plainer as a type's, since a `ByKind` is as often a sum of them, a cost or a number of rows.
fn leaf_here(kept: &mut [u8], at: usize, own: ByKind) -> Weighed
    requires { (at < length kept.old) × Small own }
    ensures { LeafHere own at kept.old kept.new result }
{
    kept[at] = leaf_mark(own);
    as_leaf(own, at + 1)
}

// The context of the record at a place is a leaf with these losses or a split over these children: its decision is kept there.
fn split_here(kept: &mut [u8], at: usize, own: ByKind, children: Weighed) -> Weighed
    requires { (at < length kept.old) × Small own × (children.rows.first + children.rows.second + 2 < 2 ^ 64) }
    ensures { SplitHere own at children kept.old kept.new result }
{
    kept[at] = split_mark(own, children.least);
    as_split(own, children)
}

// The context is a leaf with these losses.
fn as_leaf(own: ByKind, next: usize) -> Weighed
    requires { Small own }
    ensures { LeafOf own next result }
{
    let apart = own.first + own.second;
    let rows = ByKind {
        shared: of_less(own.shared, apart, 1, 2),
        first: 1,
        second: 1,
    };
    let least = ByKind {
        shared: own.shared.min(apart),
        ..own
    };
    Weighed { least, rows, next }
}

// The context is a leaf with these losses, or a split over children that lose and hold this together.
fn as_split(own: ByKind, children: Weighed) -> Weighed
    requires { Small own × (children.rows.first + children.rows.second + 2 < 2 ^ 64) }
    ensures { SplitOf own children result }
{
    let below = children.least;
    let held = children.rows;
    let first = own.first.min(below.first);
    let second = own.second.min(below.second);
    let first_rows = of_less(own.first, below.first, 1, held.first);
    let second_rows = of_less(own.second, below.second, 1, held.second);
    let apart = first + second;
    let apart_rows = of_less(apart, below.shared, first_rows + second_rows, held.shared);
    let rows = ByKind {
        shared: of_less(own.shared, apart.min(below.shared), 1, apart_rows),
        first: first_rows,
        second: second_rows,
    };
    let least = ByKind {
        shared: own.shared.min(apart.min(below.shared)),
        first,
        second,
    };
    Weighed {
        least,
        rows,
        next: children.next,
    }
}

// No child yet.
fn none_yet(next: usize) -> Weighed
    ensures { NoneOf next result }
{
    let none = ByKind {
        shared: 0,
        first: 0,
        second: 0,
    };
    Weighed {
        least: none,
        rows: none,
        next,
    }
}

// One child more.
fn and_child(children: Weighed, w: Weighed) -> Weighed
    requires { CanAdd children w }
    ensures { ChildOf children w result }
{
    Weighed {
        least: children.least + w.least,
        rows: children.rows + w.rows,
        next: w.next,
    }
}

// One child more that is not held: a leaf that costs this stands for it, and the walk stays where it is.
fn and_unseen(children: Weighed, costs: ByKind) -> Weighed
    requires { CanAddUnseen costs children }
    ensures { UnseenOf costs children result }
{
    and_child(children, as_leaf(costs, children.next))
}

// What goes with the less of two losses; of two that are the same, with the first.
fn of_less(x: u64, y: u64, of_x: u64, of_y: u64) -> u64
    ensures { (result ≡ cond (leb x y) of_x of_y) × (result ≤ of_x + of_y) }
{
    if x <= y { of_x } else { of_y }
}

// The decision at a leaf with these losses, as a number (what may not change, as at `weigh`): no own tree splits there.
pub fn leaf_mark(own: ByKind) -> u8
    requires { Small own }
    ensures { result ≡ leaf_mark own }
{
    if own.shared <= own.first + own.second {
        u8::from(Choice::Shared)
    } else {
        u8::from(Choice::Separate)
    }
}

// The decision at a context over children that lose this together, as a number.
fn split_mark(own: ByKind, below: ByKind) -> u8
    requires { Small own }
    ensures { result ≡ split_mark own below }
{
    let apart = own.first.min(below.first) + own.second.min(below.second);
    u8::from(Mark {
        joint: choice_of(own.shared, apart, below.shared),
        first: own.first > below.first,
        second: own.second > below.second,
    })
}

// Of a shared leaf, two separate trees and a split of both, the first that loses least.
fn choice_of(leaf: u64, apart: u64, split: u64) -> Choice
    ensures { number_of_choice result ≡ choice leaf apart split }
{
    if leaf <= apart.min(split) {
        return Choice::Shared;
    }
    if apart <= split {
        Choice::Separate
    } else {
        Choice::Split
    }
}

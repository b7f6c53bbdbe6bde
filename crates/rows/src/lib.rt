// One row of a report, written from the counts of its context.
#![tactic(auto)]

ghost use Rattle.std.specs.Prelude.{◌≡◌, ◌∷◌, ◌++◌, ℕ, ◌+◌, ◌≤◌, length, drop, get_or};
ghost use Rattle.std.proofs.Math.Seq.{paste};
ghost use Rattle.numbers.specs.Limits.{most_symbols, most_counted, row_width};
ghost use Rattle.contexts.specs.Sitting.{first, second, eight, row_in, sum_of};
ghost use Rattle.estimate.specs.Table.{counts_in};
ghost use Rattle.rows.specs.Members.{number};
ghost use Rattle.rows.specs.Rows.{kind_of};
ghost use Rattle.rows.specs.Kinds.{kind_told};

use numbers::ROW_WIDTH;

// Of what kind a row is: shared by both samples, the first's own, or the second's own.
#[derive(Clone, Copy, Debug, PartialEq, Eq)]
pub enum Kind {
    Shared,
    First,
    Second,
}

// The number that stands for a kind on a sheet.
impl From<Kind> for u32 {
    ghost from_gives = { λ kind result. result ≡ number (kind_told kind) };

    fn from(kind: Kind) -> u32 {
        match kind {
            Kind::Shared => 0,
            Kind::First => 1,
            Kind::Second => 2,
        }
    }
}

// Writes a row's eleven numbers at the beginning of the part lent.
// What may not change: `put_row` and `row_counts` promise a row for every number that `kind_of` reads, so `Kind` would ask more of callers.
pub fn put_row(part: &mut [u32], kind: u32, len: u32, code: u32, counts: [[u32; 8]; 2])
    requires { (row_width ≤ length part.old) × (sum_of (row_in counts first) + sum_of (row_in counts second) ≤ most_counted) }
    ensures { part.new ≡ (kind ∷ len ∷ code ∷ eight (counts_in counts (kind_of kind))) ++ drop row_width part.old }
{
    let row = row_counts(kind, counts);
    put_counts(part, row);
    part[0] = kind;
    part[1] = len;
    part[2] = code;
}

// The counts of a row of a kind: the added ones of a shared row, those of its sample of an own row.
pub fn row_counts(kind: u32, counts: [[u32; 8]; 2]) -> [u32; 8]
    requires { sum_of (row_in counts first) + sum_of (row_in counts second) ≤ most_counted }
    ensures { result ≡ eight (counts_in counts (kind_of kind)) }
{
    match kind {
        0 => estimate::added(counts),
        1 => counts[0],
        _ => counts[1],
    }
}

fn put_counts(part: &mut [u32], row: [u32; 8])
    requires { row_width ≤ length part.old }
    ensures { part.new ≡ paste part.old 3 row most_symbols }
{
    part[3..ROW_WIDTH].copy_from_slice(&row);
}

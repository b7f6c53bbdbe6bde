// The logarithm of document 01: base 2, in 1,024ths, rounded down. It is worked out by squaring; no table of it is kept.
// `logs` and `LentLogs` are the only doors to it: what the one gives is lent by the other, and nothing is known of it but `AreLogs`.
#![tactic(auto)]

ghost use Rattle.std.specs.Prelude.{◌≡◌, ◌≤◌, length};
ghost use Rattle.numbers.specs.Limits.{most_counted};
ghost use Rattle.logarithm.specs.Logarithm.{L};
ghost use Rattle.logarithm.specs.Table.{AreLogs};

// How many logarithms are worked out beforehand: most that are asked for are of small counts.
const FEW: usize = 64;

// The first logarithms, for a caller to hold and to lend: each is worked out once, however often it is asked for.
pub fn logs() -> [u32; FEW]
    ensures { AreLogs result }
{
    let mut values = [0u32; FEW];
    work_out(&mut values);
    values
}

// Logarithms that are lent: each of the numbers is L of its place, however many they are. No value without that can be made.
#[derive(Clone, Copy)]
pub struct LentLogs<'a> {
    values: &'a [u32],
    ghost are_logs: { AreLogs values.now },
}

impl<'a> LentLogs<'a> {
    pub fn new(values: &'a [u32]) -> Self
        requires { AreLogs values.now }
    {
        LentLogs { values }
    }

    // L(n), for callers who keep n within the limits.
    pub fn log_at(self, n: u32) -> u32
        requires { n ≤ most_counted }
        ensures { result ≡ L n }
    {
        let at = n as usize;
        if at < self.values.len() {
            return self.values[at];
        }
        log_past(self, n)
    }
}

// L of each place. What stands there already is lent for the next.
fn work_out(values: &mut [u32])
    requires { length values.old ≤ most_counted }
    ensures { AreLogs values.new }
{
    for n in 0..values.len() {
        values[n] = log_past(LentLogs::new(&values[..n]), n as u32);
    }
}

// L of a number that need not be lent: a number twice as large has 1,024 more, so that of its odd part will do.
fn log_past(logs: LentLogs, n: u32) -> u32
    requires { n ≤ most_counted }
    ensures { result ≡ L n }
{
    if n == 0 {
        return 0;
    }
    let twos = u32::trailing_zeros(n);
    let odd = (n >> twos) as usize;
    if odd < logs.values.len() {
        return logs.values[odd] + 1024 * twos;
    }
    log_of(n)
}

// What is added to L(n) while its digits are worked out, so that the tenth is known to be the last.
const MARK: u32 = 32768;

// L(n), by ten squarings. After j of them n^(2^j) is near lead * 2^(e - 31), and lead has 32 binary digits: squaring doubles e,
// and adds 1 where the square has a digit more. k is e with a 1 before its digits, 32 at first and `MARK` after ten doublings.
// No plainer: `for _ in 0..10` would count beside k, which itself tells when the tenth digit is there.
fn log_of(n: u32) -> u32
    requires { (1 ≤ n) × (n ≤ most_counted) }
    ensures { result ≡ L n }
{
    let zeros = u32::leading_zeros(n);
    // A cast: tried by `u64::from`, and the proof of the loop's beginning did not close.
    let mut lead = (n as u64) << zeros;
    let mut k = 63 - zeros;
    while k < MARK {
        let square = lead * lead;
        let digit = square >> 63;
        lead = square >> 31 >> digit;
        k = 2 * k + digit as u32;
    }
    k - MARK
}

// The answers as lines on standard output.
use calls::{Fed, Reported};
use chart::{Chart, Point};
use std::fmt;

// What an accepted call answers.
#[derive(Drop)]
pub(crate) enum Told {
    Done,
    Room(u32),
    Fed(Fed),
    Chart(Chart),
    Report(Reported),
}

// A refusal by its number in the documents: a call's or a making's, of which the line tells no more.
#[derive(Drop)]
pub(crate) struct Refused(u32);

impl From<calls::Refusal> for Refused {
    fn from(why: calls::Refusal) -> Refused {
        Refused(u32::from(why))
    }
}

impl From<store::Refusal> for Refused {
    fn from(why: store::Refusal) -> Refused {
        Refused(u32::from(why))
    }
}

impl fmt::Display for Refused {
    fn fmt<W: fmt::Write>(&self, f: &mut fmt::Formatter<W>) -> fmt::Result {
        write!(f, "refused {}", self.0)
    }
}

impl fmt::Display for Told {
    fn fmt<W: fmt::Write>(&self, f: &mut fmt::Formatter<W>) -> fmt::Result {
        match self {
            Told::Done => f.write_str("done"),
            Told::Room(left) => write!(f, "room {left}"),
            Told::Fed(fed) => write_fed(f, *fed),
            Told::Chart(chart) => write_chart(f, *chart),
            Told::Report(Reported { rows, score }) => write!(f, "report {rows} {score}"),
        }
    }
}

fn write_fed<W: fmt::Write>(f: &mut fmt::Formatter<W>, fed: Fed) -> fmt::Result {
    let Fed { accepted, ending } = fed;
    match ending {
        Ok(()) => write!(f, "fed {accepted} whole"),
        Err(why) => {
            let refused = Refused::from(why);
            write!(f, "fed {accepted} {refused}")
        }
    }
}

fn write_chart<W: fmt::Write>(f: &mut fmt::Formatter<W>, chart: Chart) -> fmt::Result {
    match chart {
        Chart::Neither => f.write_str("chart neither"),
        Chart::First(share) => write!(f, "chart first{}", Bits(share)),
        Chart::Second(share) => write!(f, "chart second{}", Bits(share)),
        Chart::Both(Point { first, second, gap }) => {
            write!(f, "chart both{}{}{}", Bits(first), Bits(second), Bits(gap))
        }
    }
}

// A blank and the 64 bits of a float. What is no number has no bits to show, and no answer holds it.
#[derive(Drop)]
struct Bits(f64);

impl fmt::Display for Bits {
    fn fmt<W: fmt::Write>(&self, f: &mut fmt::Formatter<W>) -> fmt::Result {
        if self.0.is_nan() {
            return Ok(());
        }
        let bits = self.0.to_bits();
        write!(f, " {bits:016x}")
    }
}

// Tells an answer. What cannot be written is left out, and the play goes on.
pub(crate) fn say(rt: &impl Print, answer: Result<Told, Refused>) {
    let said = match answer {
        Ok(told) => rt.println(told),
        Err(refused) => rt.println(refused),
    };
    said.is_ok();
}

// The first and the last period of each frequency among rows.
ghost use Rattle.std.specs.Prelude.{◌≡◌, ◌<◌, ◌*◌};
ghost use Rattle.vtl_cell.specs.Row.{column_of};
ghost use Rattle.vtl_series.specs.Kept.{AreWithin, and_index, and_number, and_period, chosen, no_spans, span_at};
ghost use Rattle.vtl_series.specs.Series.{period_in};
ghost use Rattle.vtl_time.specs.Periods.{parts_in_year};

use crate::Extent;
use vtl_cell::Cell;
use vtl_time::{Frequency, Period};

// The numbers of the first and of the last period.
#[derive(Clone, Copy)]
pub(crate) struct Span {
    pub(crate) first: u64,
    pub(crate) last: u64,
}

// The span of each frequency that occurs.
#[derive(Clone, Copy)]
pub(crate) struct Spans {
    annual: Option<Span>,
    semester: Option<Span>,
    quarter: Option<Span>,
    month: Option<Span>,
}

// A span with one number more.
fn widened(span: Option<Span>, index: u64) -> Span
    ensures { result ≡ and_number span index }
{
    match span {
        None => Span {
            first: index,
            last: index,
        },
        Some(span) => Span {
            first: span.first.min(index),
            last: span.last.max(index),
        },
    }
}

// The period in a row's cell at a place, if there is one.
pub(crate) fn period_at(row: &[Cell], on: usize) -> Option<Period>
    ensures { result ≡ period_in (column_of on row.now) }
{
    match row.get(on) {
        Some(Cell::Period(period)) => Some(*period),
        _ => None,
    }
}

// The span of a series of a frequency, from its own and from that of all rows.
pub(crate) fn chosen(extent: Extent, own: Option<Span>, all: Option<Span>) -> Option<Span>
    ensures { result ≡ chosen extent own all }
{
    match extent {
        Extent::Single => own,
        Extent::All => match own {
            None => None,
            Some(_) => all,
        },
    }
}

impl Spans {
    // Those of no rows.
    pub(crate) fn new() -> Spans
        ensures value { result ≡ no_spans }
        ensures within { AreWithin result }
    {
        Spans {
            annual: None,
            semester: None,
            quarter: None,
            month: None,
        }
    }

    // That of a frequency.
    pub(crate) fn at(&self, frequency: Frequency) -> Option<Span>
        ensures { result ≡ span_at self.now frequency }
    {
        match frequency {
            Frequency::Annual => self.annual,
            Frequency::Semester => self.semester,
            Frequency::Quarter => self.quarter,
            Frequency::Month => self.month,
        }
    }

    // Those of one number of a frequency more.
    fn widen(&mut self, frequency: Frequency, index: u64)
        requires below { index < 10000 * parts_in_year frequency }
        requires within { AreWithin self.old }
        ensures value { self.new ≡ and_index self.old frequency index }
        ensures within { AreWithin self.new }
    {
        match frequency {
            Frequency::Annual => self.annual = Some(widened(self.annual, index)),
            Frequency::Semester => self.semester = Some(widened(self.semester, index)),
            Frequency::Quarter => self.quarter = Some(widened(self.quarter, index)),
            Frequency::Month => self.month = Some(widened(self.month, index)),
        }
    }

    // Those of one row more.
    pub(crate) fn meet(&mut self, row: &[Cell], on: usize)
        requires within { AreWithin self.old }
        ensures value { self.new ≡ and_period self.old (period_in (column_of on row.now)) }
        ensures within { AreWithin self.new }
    {
        if let Some(period) = period_at(row, on) {
            self.widen(period.frequency(), period.index());
        }
    }
}

// What EXISTS has its rows of.
ghost use Rattle.std.specs.Prelude.{◌≡◌, IfOk, true};
ghost use Rattle.sql_meaning.specs.Tables.{columns_named};
ghost use Rattle.sql_eval.specs.Origins.{AreSame, AreSameSeries, IsMaybeSeriesOf, IsOriginOf, IsSamePlaces};

use crate::Names;
use sql_tree::Source;
use std::alloc::{AllocError, Global};
use vtl_series::Extent;
use vtl_text::Txt;

/// A SERIES, with the places of its columns in the table.
#[derive(Drop, PartialEq, Eq, PartialOrd, Ord)]
pub struct SeriesPlaces {
    /// How far its series reach.
    pub extent: Extent,
    /// The place of the column of periods.
    pub on: usize,
    /// The places of the columns on which the rows of a series agree.
    pub by: Vec<usize>,
}

/// A table, or a SERIES over it. They have an order, in which equal ones are found.
#[derive(Drop, PartialEq, Eq, PartialOrd, Ord)]
pub struct Origin {
    /// The table.
    pub table: Txt,
    /// The SERIES, where it is one.
    pub series: Option<SeriesPlaces>,
}

// A copy of places.
fn copied(alloc: Global, places: &[usize]) -> Result<Vec<usize>, AllocError>
    ensures { IfOk result (λ v. v.items ≡ places.now) }
{
    let mut copies = Vec::new(alloc);
    copies.extend_from_slice(places)?;
    Ok(copies)
}

// Whether two lists of places are known to be the same.
fn are_same_places(a: &[usize], b: &[usize]) -> bool
    ensures { result ≡ true → a.now ≡ b.now }
{
    if a.len() != b.len() {
        return false;
    }
    for i in 0..a.len() {
        if a[i] != b[i] {
            return false;
        }
    }
    true
}

fn is_same_extent(a: Extent, b: Extent) -> bool
    ensures { result ≡ true → a ≡ b }
{
    match (a, b) {
        (Extent::Single, Extent::Single) => true,
        (Extent::All, Extent::All) => true,
        _ => false,
    }
}

impl SeriesPlaces {
    /// The same. It fails only if memory runs out.
    pub fn copy(&self, alloc: Global) -> Result<SeriesPlaces, AllocError>
        ensures { IfOk result (IsSamePlaces self.now) }
    {
        Ok(SeriesPlaces {
            extent: self.extent,
            on: self.on,
            by: copied(alloc, &self.by)?,
        })
    }

    // Whether it is known to be the same.
    fn is_same(&self, other: &SeriesPlaces) -> bool
        ensures { result ≡ true → IsSamePlaces self.now other.now }
    {
        is_same_extent(self.extent, other.extent)
            && self.on == other.on
            && are_same_places(&self.by, &other.by)
    }
}

fn copy_series(
    alloc: Global,
    series: &Option<SeriesPlaces>,
) -> Result<Option<SeriesPlaces>, AllocError>
    ensures { IfOk result (AreSameSeries series.now) }
{
    match series {
        Some(series) => Ok(Some(series.copy(alloc)?)),
        None => Ok(None),
    }
}

fn is_same_series(a: &Option<SeriesPlaces>, b: &Option<SeriesPlaces>) -> bool
    ensures { result ≡ true → AreSameSeries a.now b.now }
{
    match (a, b) {
        (None, None) => true,
        (Some(a), Some(b)) => a.is_same(b),
        _ => false,
    }
}

impl Origin {
    /// The same. It fails only if memory runs out.
    pub fn copy(&self, alloc: Global) -> Result<Origin, AllocError>
        ensures { IfOk result (AreSame self.now) }
    {
        Ok(Origin {
            table: self.table.share()?,
            series: copy_series(alloc, &self.series)?,
        })
    }

    /// Whether it is known to be the same.
    pub fn is_same(&self, other: &Origin) -> bool
        ensures { result ≡ true → AreSame self.now other.now }
    {
        self.table == other.table && is_same_series(&self.series, &other.series)
    }
}

// The SERIES of a source, if it is one.
fn series_of<N: Names>(
    alloc: Global,
    names: &N,
    source: &Source,
) -> Result<Option<SeriesPlaces>, AllocError>
    ensures { IfOk result (IsMaybeSeriesOf (columns_named (N.tables names.now) source.now.table) source.now.series) }
{
    match &source.series {
        Some(series) => Ok(Some(names.series_places(alloc, &source.table, series)?)),
        None => Ok(None),
    }
}

/// What a source has its rows of, whatever rows the tables have. It fails only if memory runs out.
pub(crate) fn origin_of<N: Names>(
    alloc: Global,
    names: &N,
    source: &Source,
) -> Result<Origin, AllocError>
    ensures { IfOk result (IsOriginOf (N.tables names.now) source.now) }
{
    Ok(Origin {
        table: source.table.share()?,
        series: series_of(alloc, names, source)?,
    })
}

// The queries of `fill_time_series`.
ghost use Rattle.std.specs.Prelude.{◌≡◌, map, IfOk};
ghost use Rattle.sql_tree.specs.View.{query_tree};
ghost use Rattle.times_to_sql.specs.Fills.{fill_keys_query, fill_query, series_as, series_of, span_of};

use crate::columns::{names_of, other_identifiers, times};
use joins_to_sql::{full_query, key_structure};
use selects_to_sql::{Writer, name_of_first, one_select, own_items};
use sql_tree::{Query, Select, Series, Source, Span};
use std::alloc::{AllocError, Global};
use vtl_syntax::Filling;
use vtl_text::{List, Txt};
use vtl_tree::Structure;

fn span_of(filling: Filling) -> Span
    ensures { result ≡ span_of filling }
{
    match filling {
        Filling::Single => Span::Single,
        Filling::All => Span::All,
    }
}

// On the time, by the other identifiers.
fn series_of(alloc: Global, filling: Filling, a: &Structure) -> Result<Series, AllocError>
    ensures { IfOk result (λ s. s ≡ series_of filling a.now) }
{
    let times = times(alloc, a)?;
    let others = other_identifiers(alloc, a)?;
    Ok(Series {
        on: name_of_first(alloc, &times)?,
        by: List::of(names_of(alloc, &others)?),
        span: span_of(filling),
    })
}

fn series_as(
    alloc: Global,
    writer: &Writer,
    filling: Filling,
    a: &Structure,
    table: &Txt,
) -> Result<Source, AllocError>
    ensures { IfOk result (λ s. s ≡ series_as filling a.now table.now) }
{
    let mut source = writer.source(table)?;
    source.series = Some(series_of(alloc, filling, a)?);
    Ok(source)
}

/// The identifiers of the points of filled series. It fails only if memory runs out.
pub(crate) fn fill_keys_query(
    alloc: Global,
    writer: &Writer,
    filling: Filling,
    a: &Structure,
    table: &Txt,
) -> Result<Query, AllocError>
    ensures { IfOk result (λ q. query_tree q ≡ fill_keys_query filling a.now table.now) }
{
    let items = own_items(alloc, writer, &a.identifiers(alloc)?)?;
    let select = Select {
        items: List::of(items),
        from: series_as(alloc, writer, filling, a, table)?,
        joins: List::of(Vec::new(alloc)),
        condition: None,
        group: List::of(Vec::new(alloc)),
        having: None,
    };
    one_select(alloc, select)
}

/// The operand beside the identifiers of the points of filled series. It fails only if memory runs out.
pub(crate) fn fill_query(
    alloc: Global,
    writer: &Writer,
    a: &Structure,
    s: &Structure,
    keys: &Txt,
    table: &Txt,
) -> Result<Query, AllocError>
    ensures { IfOk result (λ q. query_tree q ≡ fill_query writer.now a.now s.now keys.now table.now) }
{
    let columns = key_structure(alloc, a)?;
    let table = table.share()?;
    full_query(alloc, writer, &columns, &[a], &[table], s, keys, None)
}

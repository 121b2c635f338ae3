// The columns of tables.
//
// Names are found by their order (`ByName`, and a `BTreeSet` for the columns of GROUP BY), never by a hash: a text of
// SQL has no limit of size. What GROUP BY names is a set in the definition, since nothing looks at its order.
ghost use Rattle.std.specs.List.{list_all};
ghost use Rattle.std.specs.Prelude.{◌≡◌, length, zip, is_some, IfOk, OnOk};
ghost use Rattle.sql_check_parts.specs.Scopes.{add_column, columns_chosen, has_names, repeats, series_fits, series_names, value_among};
ghost use Rattle.sql_check_parts.specs.Told.{distinct_columns};

use crate::or_null;
use sql_tree::Series;
use std::alloc::{AllocError, Global};
use std::marker::Model;
use vtl_cell::{Kind, is_same_kind};
use vtl_text::{ByName, Txt, are_distinct};

/// The columns of a table. A contract sees the list of their names with their kinds.
#[derive(Drop)]
pub struct Columns {
    kinds: ByName<Kind>,
}

impl Model for Columns {
    ghost use Rattle.sql_check_parts.specs.Scopes as scopes;

    ghost Value = { scopes.Columns };

    ghost view = { λ c. c.kinds };
}

impl Columns {
    /// The columns of these names and kinds, as many of the one as of the other; none where a name stands twice. It
    /// fails only if memory runs out.
    pub fn of(alloc: Global, names: &[Txt], kinds: &[Kind]) -> Result<Option<Columns>, AllocError>
        requires { length kinds.now ≡ length names.now }
        ensures { IfOk result (λ columns. columns ≡ distinct_columns (zip names.now kinds.now)) }
    {
        let mut columns = ByName::new(alloc);
        for i in 0..names.len() {
            let name = &names[i];
            if columns.has(name) {
                return Ok(None);
            }
            columns.put(name.share()?, kinds[i])?;
        }
        Ok(Some(Columns { kinds: columns }))
    }

    /// The kind of a column.
    pub fn kind(&self, name: &Txt) -> Option<Kind>
        ensures { result ≡ value_among self.now name.now }
    {
        self.kinds.get(name).copied()
    }

    // Puts a column after the others, unless one of its name is there.
    fn add(&mut self, name: &Txt, kind: Kind) -> Result<(), AllocError>
        ensures { OnOk result (self.new ≡ add_column self.old name.now kind) }
    {
        if self.kinds.has(name) {
            return Ok(());
        }
        self.kinds.put(name.share()?, kind)?;
        Ok(())
    }

    // The columns of these names, each with its kind in the table.
    fn chosen(&self, alloc: Global, names: &[Txt]) -> Result<Columns, AllocError>
        ensures { IfOk result (λ columns. columns ≡ columns_chosen self.now names.now) }
    {
        let mut columns = Columns {
            kinds: ByName::new(alloc),
        };
        for name in names {
            columns.add(name, or_null(self.kind(name)))?;
        }
        Ok(columns)
    }

    /// The columns of a SERIES over the table. It fails only if memory runs out.
    pub(crate) fn of_series(&self, alloc: Global, series: &Series) -> Result<Columns, AllocError>
        ensures { IfOk result (λ columns. columns ≡ columns_chosen self.now (series_names series.now)) }
    {
        let names = series_names(alloc, series)?;
        self.chosen(alloc, &names)
    }

    // Whether the table has all of these columns.
    fn has_all(&self, names: &[Txt]) -> bool
        ensures { result ≡ list_all (λ name. is_some (value_among self.now name)) names.now }
    {
        for name in names {
            if self.kind(name).is_none() {
                return false;
            }
        }
        true
    }

    /// Whether the table has the columns that a SERIES names.
    #[tactic(auto, using(crate::proofs::SeriesColumns::names_parted))]
    pub(crate) fn has_names(&self, series: &Series) -> bool
        ensures { result ≡ has_names self.now series.now }
    {
        self.has_all(series.by.as_slice()) && self.kind(&series.on).is_some()
    }

    /// Whether the names of a SERIES are columns of the table and differ, and it is ON periods. It fails only if memory
    /// runs out.
    pub(crate) fn fits(&self, alloc: Global, series: &Series) -> Result<bool, AllocError>
        ensures { IfOk result (λ b. b ≡ series_fits self.now series.now) }
    {
        let names = series_names(alloc, series)?;
        let repeated = repeats(alloc, &names)?;
        let is_of_periods = is_same_kind(or_null(self.kind(&series.on)), Kind::Period);
        Ok(self.has_names(series) && !repeated && is_of_periods)
    }
}

// The names of a SERIES, as its columns stand.
fn series_names(alloc: Global, series: &Series) -> Result<Vec<Txt>, AllocError>
    ensures { IfOk result (λ names. names.items ≡ series_names series.now) }
{
    let mut names = Vec::new(alloc);
    for name in series.by.as_slice() {
        names.push(name.share()?)?;
    }
    names.push(series.on.share()?)?;
    Ok(names)
}

/// Whether a name stands twice. It fails only if memory runs out.
pub fn repeats(alloc: Global, names: &[Txt]) -> Result<bool, AllocError>
    ensures { IfOk result (λ b. b ≡ repeats names.now) }
{
    Ok(!are_distinct(alloc, names)?)
}

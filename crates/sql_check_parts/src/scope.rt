// The sources of a select.
ghost use Rattle.std.specs.Map.{keys_of, lookup};
ghost use Rattle.std.specs.Option.{option_copied};
ghost use Rattle.std.specs.Prelude.{◌≡◌, [], option_map, IfOk, OnOk};
ghost use Rattle.vtl_text.specs.Texts.{same_text};
ghost use Rattle.sql_check_parts.specs.Given.{columns_given};
ghost use Rattle.sql_check_parts.specs.Scopes.{add_source, column_kind, found, is_among};
ghost use Rattle.sql_check_parts.specs.Told.{IsTold};
ghost use Rattle.sql_check_parts.specs.Windows.{column_breaks, is_ungrouped};

use crate::{GivenColumns, Grouping, SqlRule, Test, Told, least_broken, or_null};
use sql_tree::Column;
use std::alloc::{AllocError, Global};
use std::marker::Model;
use vtl_cell::Kind;
use vtl_text::{ByName, Txt};

/// The sources of a select from the left, by alias. A contract sees the list of the aliases with the columns of the
/// tables.
#[derive(Drop)]
pub struct Scope<'a> {
    sources: ByName<GivenColumns<'a>>,
}

impl<'a> Model for Scope<'a> {
    ghost use Rattle.std.specs.Prelude.{map};
    ghost use Rattle.sql_check_parts.specs.Given.{columns_given};
    ghost use Rattle.sql_check_parts.specs.Scopes as scopes;

    ghost Value = { scopes.Scope };

    ghost view = { λ s. map (λ e. (e.0, columns_given e.1)) s.sources };
}

impl<'a> Scope<'a> {
    /// No sources.
    pub fn new(alloc: Global) -> Scope<'a>
        ensures { result ≡ [] }
    {
        Scope {
            sources: ByName::new(alloc),
        }
    }

    /// Whether a source has this alias.
    pub fn has(&self, alias: &Txt) -> bool
        ensures { result ≡ is_among alias.now (keys_of self.now) }
    {
        self.sources.has(alias)
    }

    /// Adds a source, unless it has no columns or its alias is there already. It fails only if memory runs out.
    pub fn add(&mut self, alias: &Txt, columns: Option<GivenColumns<'a>>) -> Result<(), AllocError>
        ensures { OnOk result (self.new ≡ add_source self.old alias.now (option_map columns_given columns.entry)) }
    {
        let Some(columns) = columns else {
            return Ok(());
        };
        if self.has(alias) {
            return Ok(());
        }
        self.sources.put(alias.share()?, columns)?;
        Ok(())
    }

    // The columns of the source of an alias.
    fn columns(&self, alias: &Txt) -> Option<&GivenColumns<'a>>
        ensures { option_map columns_given (option_copied result) ≡ lookup (same_text alias.now) self.now }
    {
        self.sources.get(alias)
    }

    /// The kind of a column.
    pub fn kind(&self, column: &Column) -> Option<Kind>
        ensures { result ≡ found self.now column.now }
    {
        match self.columns(&column.source) {
            Some(columns) => columns.kind(&column.name),
            None => None,
        }
    }
}

/// Whether a column stands in a group, but is not one of GROUP BY. It fails only if memory runs out.
pub(crate) fn is_ungrouped(group: &Option<Grouping>, column: &Column) -> Result<bool, AllocError>
    ensures { IfOk result (λ b. b ≡ is_ungrouped group.now column.now) }
{
    match group {
        Some(group) => Ok(!group.has(column)?),
        None => Ok(false),
    }
}

/// A column. It fails only if memory runs out.
pub fn column(scope: &Scope, group: &Option<Grouping>, column: &Column) -> Result<Told, AllocError>
    ensures { IfOk result (IsTold (column_kind scope.now column.now) (column_breaks scope.now group.now column.now)) }
{
    let kind = scope.kind(column);
    let ungrouped = is_ungrouped(group, column)?;
    Ok(Told {
        kind: or_null(kind),
        fault: least_broken(&[
            Test {
                rule: SqlRule::UnknownColumn,
                is_broken: kind.is_none(),
            },
            Test {
                rule: SqlRule::OutsideGroup,
                is_broken: ungrouped,
            },
        ]),
    })
}

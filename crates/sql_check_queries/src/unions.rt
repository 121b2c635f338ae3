// The columns that selects share.
ghost use Rattle.std.specs.List.{list_any};
ghost use Rattle.std.specs.Option.{is_none};
ghost use Rattle.std.specs.Prelude.{◌≡◌, ◌&&◌, Some, map, option_and_then, IfOk};
ghost use Rattle.vtl_cell.specs.ScalarKinds.{shared_kind};
ghost use Rattle.sql_check_parts.specs.Queries.{beside, has_null_column, lacks_kind, same_names};
ghost use Rattle.sql_check_parts.specs.Rules.{least, lesser};
ghost use Rattle.sql_check_parts.specs.Scopes.{or_null};
ghost use Rattle.sql_check_queries.specs.Told.{columns_breaks, IsFirst};

use crate::selects::SelectTold;
use sql_check_parts::{MOST_COLUMNS, SqlRule, Test, least_broken, lesser, or_null};
use std::alloc::{AllocError, Global};
use vtl_cell::{Kind, is_null_kind, shared_kind};
use vtl_text::{List, Txt};

/// What is known of the first selects of a query.
#[derive(Drop)]
pub(crate) struct Union {
    /// The names of the first.
    pub(crate) names: List<Txt>,
    /// The kinds that they share, by place.
    pub(crate) shared: Vec<Option<Kind>>,
    /// Whether all of them have the names of the first.
    pub(crate) same_names: bool,
    /// The least of the rules that one of them breaks.
    pub(crate) fault: Option<SqlRule>,
}

// The kind that a column shares with one more.
fn shared_with(shared: Option<Kind>, kind: Kind) -> Option<Kind>
    ensures { result ≡ option_and_then (λ s. shared_kind s kind) shared }
{
    match shared {
        Some(shared) => shared_kind(shared, kind),
        None => None,
    }
}

/// Shares kinds with those of one more select, by their places.
pub fn share_kinds(shared: &mut [Option<Kind>], kinds: &[Kind])
    ensures { shared.new ≡ beside shared.old kinds.now }
{
    for i in 0..shared.len().min(kinds.len()) {
        shared[i] = shared_with(shared[i], kinds[i]);
    }
}

/// Kinds as those that one select shares with itself. It fails only if memory runs out.
pub fn all_some(alloc: Global, kinds: &[Kind]) -> Result<Vec<Option<Kind>>, AllocError>
    ensures { IfOk result (λ shared. shared.items ≡ map Some kinds.now) }
{
    let mut shared = Vec::with_capacity(alloc, kinds.len())?;
    for kind in kinds {
        shared.push(Some(*kind))?;
    }
    Ok(shared)
}

fn any_none(shared: &[Option<Kind>]) -> bool
    ensures { result ≡ list_any is_none shared.now }
{
    shared.iter().any(|kind| kind.is_none())
}

fn any_lacks_kind(shared: &[Option<Kind>]) -> bool
    ensures { result ≡ list_any lacks_kind shared.now }
{
    shared.iter().any(|kind| is_null_kind(or_null(*kind)))
}

fn has_null_column(unnamed: bool, shared: &[Option<Kind>]) -> bool
    ensures { result ≡ has_null_column unnamed shared.now }
{
    !unnamed && any_lacks_kind(shared)
}

impl Union {
    /// A first select. It fails only if memory runs out.
    pub(crate) fn of(alloc: Global, first: SelectTold) -> Result<Union, AllocError>
        ensures { IfOk result (IsFirst first) }
    {
        Ok(Union {
            shared: all_some(alloc, first.kinds.as_slice())?,
            names: first.names,
            same_names: true,
            fault: first.fault,
        })
    }

    /// One more select.
    pub(crate) fn add(&mut self, other: &SelectTold)
        ensures names { self.new.names ≡ self.old.names }
        ensures shared { self.new.shared.items ≡ beside self.old.shared.items other.now.kinds }
        ensures same { self.new.same_names ≡ (self.old.same_names && same_names self.old.names other.now.names) }
        ensures fault { self.new.fault ≡ lesser self.old.fault other.now.fault }
    {
        share_kinds(self.shared.as_mut_slice(), other.kinds.as_slice());
        self.same_names = self.same_names && self.names == other.names;
        self.fault = lesser(self.fault, other.fault);
    }

    /// The least of the rules that the selects break, alone and together; it is told whether a SERIES of theirs names
    /// what its table does not have.
    pub(crate) fn least_fault(&self, unnamed: bool) -> Option<SqlRule>
        ensures { result ≡ lesser self.now.fault (least (columns_breaks self.now.names self.now.shared.items self.now.same_names unnamed)) }
    {
        let shared = self.shared.as_slice();
        let own = least_broken(&[
            Test {
                rule: SqlRule::UnlikeSelects,
                is_broken: !self.same_names || any_none(shared),
            },
            Test {
                rule: SqlRule::NullColumn,
                is_broken: has_null_column(unnamed, shared),
            },
            Test {
                rule: SqlRule::CodesOrCount,
                is_broken: self.names.as_slice().len() > MOST_COLUMNS,
            },
        ]);
        lesser(self.fault, own)
    }

    /// The kinds of the columns. It fails only if memory runs out.
    pub(crate) fn kinds(&self, alloc: Global) -> Result<List<Kind>, AllocError>
        ensures { IfOk result (λ kinds. kinds ≡ map or_null self.now.shared.items) }
    {
        let mut kinds = Vec::with_capacity(alloc, self.shared.len())?;
        for kind in &self.shared {
            kinds.push(or_null(*kind))?;
        }
        Ok(List::of(kinds))
    }
}

// The columns of GROUP BY.
ghost use Rattle.std.specs.Prelude.{◌≡◌, IfOk};
ghost use Rattle.sql_check_parts.specs.Scopes.{column_name, grouping_of, is_grouped_by};

use sql_tree::Column;
use std::alloc::{AllocError, Global};
use std::collections::BTreeSet;
use std::marker::Model;
use vtl_text::Txt;

/// The columns of GROUP BY. A contract sees the set of their aliases with their names. It goes by their order, so no
/// choice of names makes a look-up longer than the logarithm of their number.
#[derive(Drop)]
pub struct Grouping {
    columns: BTreeSet<(Txt, Txt)>,
}

impl Model for Grouping {
    ghost use Rattle.std.specs.Coded.{coded_list, coded_ℕ, coded×};
    ghost use Rattle.std.specs.FinSet as set;
    ghost use Rattle.sql_check_parts.specs.Scopes as scopes;

    ghost Value = { scopes.Grouping };

    ghost coded = { set.code (coded× (coded_list coded_ℕ) (coded_list coded_ℕ)) };

    ghost view = { λ g. set.from_list g.columns.keys };
}

// The alias and the name of a column.
fn column_name(column: &Column) -> Result<(Txt, Txt), AllocError>
    ensures { IfOk result (λ name. name ≡ column_name column.now) }
{
    Ok((column.source.share()?, column.name.share()?))
}

impl Grouping {
    /// The columns. It fails only if memory runs out.
    pub fn of(alloc: Global, columns: &[Column]) -> Result<Grouping, AllocError>
        ensures { IfOk result (λ group. group ≡ grouping_of columns.now) }
    {
        let mut group = BTreeSet::new(alloc);
        for column in columns {
            group.insert(column_name(column)?)?;
        }
        Ok(Grouping { columns: group })
    }

    /// Whether a column is one of them. It fails only if memory runs out.
    pub fn has(&self, column: &Column) -> Result<bool, AllocError>
        ensures { IfOk result (λ b. b ≡ is_grouped_by self.now column.now) }
    {
        Ok(self.columns.contains(&column_name(column)?))
    }
}

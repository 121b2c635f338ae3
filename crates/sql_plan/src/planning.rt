// The plan of a query.
//
// A plan lends its query: to copy a tree takes a function for each of its types, and a plan lives no longer than its
// statement.
ghost use Rattle.std.specs.Prelude.{◌≡◌, IfOk};
ghost use Rattle.sql_tree.specs.View.{query_tree};
ghost use Rattle.sql_plan.specs.Chosen.{equality_joins};
ghost use Rattle.sql_plan.specs.EarlyChosen.{early_parts};

use crate::early::push_early;
use crate::joins::push_indexed;
use sql_meaning::Plan;
use sql_tree::Query;
use std::alloc::{AllocError, Global};

/// How a query is carried out. Exactly the joins go by an index whose ON is a conjunction of equalities of a column on
/// each side. Exactly the parts of a WHERE are tried early that may be tried before a join, each before the first such
/// join. It fails only if memory runs out.
pub fn plan(alloc: Global, query: &Query) -> Result<Plan<'_>, AllocError>
    ensures query { IfOk result (λ plan. plan.query ≡ query.now) }
    ensures indexed { IfOk result (λ plan. plan.ways.indexed ≡ equality_joins (query_tree query.now)) }
    ensures early { IfOk result (λ plan. plan.ways.early ≡ early_parts (query_tree query.now)) }
{
    let mut indexed = Vec::new(alloc);
    push_indexed(&mut indexed, query.selects.as_slice())?;
    let mut early = Vec::new(alloc);
    push_early(alloc, &mut early, query.selects.as_slice())?;
    Ok(Plan::of(query, indexed, early))
}

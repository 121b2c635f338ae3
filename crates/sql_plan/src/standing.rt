// Where the sources of a select stand.
ghost use Rattle.std.specs.Prelude.{◌≡◌, ℕ, IfOk, OnOk, drop, map, nat_le};
ghost use Rattle.sql_tree.specs.Trees.{Exp};
ghost use Rattle.sql_tree.specs.View.{expr_tree, join_tree, select_tree};
ghost use Rattle.sql_check_parts.specs.Queries.{join_source};
ghost use Rattle.sql_meaning.specs.Early.{is_full};
ghost use Rattle.sql_plan.specs.EarlyChosen.{first_join, is_lasting};
ghost use Rattle.sql_plan.specs.Reach.{ArePlaces, aliases_of, first_join_by, with_place};

use crate::reach::reach;
use sql_tree::{Join, JoinKind, Select, Source, SqlExpr};
use std::alloc::{AllocError, Global};
use vtl_text::{ByName, Txt};

/// What of the sources of a select tells before which join a part of its WHERE may be tried.
pub(crate) struct Standing {
    /// The place of each source from the left, by alias.
    places: ByName<usize>,
    /// The first join from which on none is FULL.
    lasting: usize,
    /// How many joins there are.
    joins: usize,
}

// Written out, so that a proof above sees one call and not the drop of each part.
impl Drop for Standing {
    fn drop(self) {
        let Standing {
            places: _places,
            lasting: _lasting,
            joins: _joins,
        } = self;
    }
}

impl Standing {
    /// What is noted of a select. It fails only if memory runs out.
    pub(crate) fn of(alloc: Global, select: &Select) -> Result<Standing, AllocError>
        ensures { IfOk result (λ s. (e : Exp) → first_join_by s e ≡ first_join (select_tree select.now) e) }
    {
        Ok(Standing {
            places: places(alloc, select)?,
            lasting: lasting_from(select.joins.as_slice()),
            joins: select.joins.as_slice().len(),
        })
    }

    /// The first join before which a part may be tried, where there is one. It takes no memory.
    pub(crate) fn first_join(&self, part: &SqlExpr) -> Option<usize>
        ensures { result ≡ first_join_by self.now (expr_tree part.now) }
    {
        let join = reach(&self.places, self.lasting, part)?;
        if join < self.joins { Some(join) } else { None }
    }
}

fn join_source(join: &Join) -> &Source
    ensures { result.now ≡ join_source (join_tree join.now) }
{
    match join {
        Join::On { source, .. } | Join::Cross(source) => source,
    }
}

fn is_full(join: &Join) -> bool
    ensures { result ≡ is_full (join_tree join.now) }
{
    match join {
        Join::On { kind, .. } => *kind == JoinKind::Full,
        Join::Cross(_) => false,
    }
}

fn put(places: &mut ByName<usize>, alias: &Txt, place: usize) -> Result<(), AllocError>
    ensures { OnOk result (places.new ≡ with_place places.old alias.now place) }
{
    if places.has(alias) {
        return Ok(());
    }
    places.put(alias.share()?, place)
}

// The place of each source from the left, by alias. Of two sources of one alias the first counts.
fn places(alloc: Global, select: &Select) -> Result<ByName<usize>, AllocError>
    ensures { IfOk result (ArePlaces (aliases_of (select_tree select.now))) }
{
    let mut places = ByName::new(alloc);
    put(&mut places, &select.from.alias, 0)?;
    let joins = select.joins.as_slice();
    for join in 0..joins.len() {
        put(&mut places, &join_source(&joins[join]).alias, join + 1)?;
    }
    Ok(places)
}

// The first join from which on none is FULL.
fn lasting_from(joins: &[Join]) -> usize
    ensures { (n : ℕ) → is_lasting (drop n (map join_tree joins.now)) ≡ nat_le result n }
{
    let mut from = 0;
    for join in 0..joins.len() {
        if is_full(&joins[join]) {
            from = join + 1;
        }
    }
    from
}

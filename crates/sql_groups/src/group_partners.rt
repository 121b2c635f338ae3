// The EXISTS of HAVING and the items, asked by look-ups that are made once.
ghost use Rattle.std.specs.Prelude.{◌≡◌, IfOk};
ghost use Rattle.sql_from.specs.Held.{base_held};
ghost use Rattle.sql_from.specs.KeyPartners.{asking_of};
ghost use Rattle.sql_meaning.specs.Profiles.{IsLawful};

use crate::asked::Asked;
use crate::items::GroupSelect;
use sql_eval::{Existence, Resolved};
use sql_from::{Given, KeyPartners, Partners, Sources, TupleRows};
use std::alloc::{AllocError, Global};
use std::sync::ledger::Ledger;
use vtl_decimal::Profile;
use vtl_index::Steps;

/// Look-ups for the EXISTS of a grouped select: for those that are asked at groups, and for those that the operands of
/// aggregates ask at the rows of FROM.
pub(crate) struct GroupPartners<'a> {
    pub(crate) keys: KeyPartners<'a>,
    pub(crate) rows: Partners<'a>,
}

// Written out, so that a proof above sees one call and not the drop of each part.
impl Drop for GroupPartners<'_> {
    fn drop(self) {
        let GroupPartners {
            keys: _keys,
            rows: _rows,
        } = self;
    }
}

// The look-ups for EXISTS at keys.
fn key_partners<'a, L: Ledger>(
    alloc: Global,
    held: &'a Given<'a>,
    tests: &[&'a Existence],
    p: &Profile,
    steps: &mut Steps<L>,
) -> Result<KeyPartners<'a>, AllocError>
    requires { IsLawful (base_held p.now held.now) }
    ensures { IfOk result (λ x. x ≡ asking_of held.now p.now) }
{
    let mut partners = KeyPartners::none(alloc, held, p);
    for i in 0..tests.len() {
        partners = partners.with(alloc, tests[i], steps)?;
    }
    Ok(partners)
}

// The look-ups for the EXISTS of expressions at rows of FROM.
fn row_partners<'a, L: Ledger>(
    alloc: Global,
    sources: &'a Sources<'a>,
    operands: &[&Resolved],
    p: &Profile,
    steps: &mut Steps<L>,
) -> Result<Partners<'a>, AllocError>
    requires { IsLawful (base_held p.now sources.now.held) }
    ensures { IfOk result (λ x. x ≡ sources.now) }
{
    let mut partners = Partners::none(alloc, sources);
    for i in 0..operands.len() {
        partners = partners.with(alloc, operands[i], p, steps)?;
    }
    Ok(partners)
}

impl<'a> GroupPartners<'a> {
    /// The look-ups for HAVING and the items. It fails only if memory runs out.
    pub(crate) fn of<L: Ledger>(
        alloc: Global,
        select: &'a GroupSelect,
        rows: &'a TupleRows<'a>,
        p: &Profile,
        steps: &mut Steps<L>,
    ) -> Result<GroupPartners<'a>, AllocError>
        requires { IsLawful (base_held p.now rows.now.sources.held) }
        ensures keys { IfOk result (λ x. x.keys ≡ asking_of rows.now.sources.held p.now) }
        ensures rows { IfOk result (λ x. x.rows ≡ rows.now.sources) }
    {
        let asked = Asked::by(alloc, select)?;
        let keys = key_partners(alloc, rows.sources.held(), &asked.tests, p, steps)?;
        let rows = row_partners(alloc, &rows.sources, &asked.operands, p, steps)?;
        Ok(GroupPartners { keys, rows })
    }
}

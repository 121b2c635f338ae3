// How a query is carried out.
//
// Plans stand here, since their conditions speak of the meaning. The third is said of each select's rows of FROM and
// WHERE; that whole queries stay the same follows.
//
// A plan stands over the tables of a run (`IsLawful`), whose integers are of the profile: beside a number an integer
// that is not is out of range where COALESCE or CASE makes it one, so of other tables no condition could be moved
// without a change.
ghost use Rattle.std.specs.Prelude.{◌≡◌};
ghost use Rattle.sql_tree.specs.View.{query_tree};
ghost use Rattle.sql_meaning.specs.Plans.{IsPlan};

use sql_tree::Query;
use std::marker::Model;

/// A join that goes by an index.
#[derive(Clone, Copy, Debug, PartialEq, Eq)]
pub struct Indexed {
    /// The place of its select in the query, from 0.
    pub select: usize,
    /// The place of the join in the select, from 0.
    pub join: usize,
}

/// A part of a WHERE that is tried before a join.
#[derive(Clone, Copy, Debug, PartialEq, Eq)]
pub struct Early {
    /// The place of its select in the query, from 0.
    pub select: usize,
    /// The place of the part among those that AND joins, from 0.
    pub conjunct: usize,
    /// The place of the join in the select, from 0.
    pub join: usize,
}

/// A query that is lent, those of its joins that go by an index, and the parts of its conditions that are tried early.
pub struct Plan<'q> {
    query: &'q Query,
    indexed: Vec<Indexed>,
    early: Vec<Early>,
}

// Written out, so that a proof above sees one call and not the drop of each part.
impl<'q> Drop for Plan<'q> {
    fn drop(self) {
        let Plan {
            query: _,
            indexed: _indexed,
            early: _early,
        } = self;
    }
}

impl<'q> Model for Plan<'q> {
    ghost use Rattle.std.specs.Coded.{codes};
    ghost use Rattle.sql_tree.specs.View.{query_tree};
    ghost use Rattle.sql_tree.specs.contracts.statements.Query as q;
    ghost use Rattle.sql_meaning.specs.Plans as plans;

    ghost Value = { plans.Planned };

    ghost coded = { Prim.hlevel (codes, q.the_row.coded) };

    ghost view = { λ p. record { query = p.query.now; ways = record { indexed = p.indexed.items; early = p.early.items } } };

    ghost invariant = { λ p. plans.IsPlan (query_tree p.query.now) (record { indexed = p.indexed.items; early = p.early.items }) };
}

impl<'q> Plan<'q> {
    /// The plan of a query. Each entry names a part of the query, each indexed join has a conjunction of equalities of a
    /// column on each side as its ON, and the rows and faults of the query stay as they are. It takes no memory.
    pub fn of(query: &'q Query, indexed: Vec<Indexed>, early: Vec<Early>) -> Plan<'q>
        requires { IsPlan (query_tree query.now) (record { indexed = indexed.items; early = early.items }) }
        ensures query { result.query ≡ query.now }
        ensures indexed { result.ways.indexed ≡ indexed.items }
        ensures early { result.ways.early ≡ early.items }
    {
        Plan {
            query,
            indexed,
            early,
        }
    }

    /// The query that the plan stands for. It takes no memory.
    pub fn query(&self) -> &Query
        ensures query { result.now ≡ self.now.query }
        ensures plan { IsPlan (query_tree result.now) self.now.ways }
    {
        self.query
    }

    /// The joins that go by an index. It takes no memory.
    pub fn indexed(&self) -> &[Indexed]
        ensures { result.now ≡ self.now.ways.indexed }
    {
        &self.indexed
    }

    /// The parts of conditions that are tried early. It takes no memory.
    pub fn early(&self) -> &[Early]
        ensures { result.now ≡ self.now.ways.early }
    {
        &self.early
    }
}

// What an operator is given: a structure, and what its points and components depend on.
ghost use Rattle.std.specs.Prelude.{◌≡◌, [], IfOk};
ghost use Rattle.vtl_sources.specs.Sources.{source_at, source_if_named, source_named, sources, traced};
ghost use Rattle.vtl_lineage.specs.Numbers.{merged};

use crate::numbers::nothing;
use std::alloc::{AllocError, Global};
use std::marker::Model;
use vtl_text::{List, Shared, Txt};
use vtl_tree::{Component, Structure, place_of};

/// What the points of a data set depend on, and what each component that is no identifier depends on besides, in column
/// order.
#[derive(Drop)]
pub struct Found {
    points: Shared<usize>,
    others: List<Shared<usize>>,
}

impl Model for Found {
    ghost use Rattle.vtl_sources.specs.Sources.{Sources, sources};
    ghost use Rattle.vtl_lineage.specs.Numbers.{Numbers};

    ghost Value = { Sources Numbers };

    ghost view = { λ f. sources f.points f.others };
}

impl Found {
    /// What was found.
    pub fn of(points: Shared<usize>, others: Vec<Shared<usize>>) -> Found
        ensures { result ≡ sources points others.items }
    {
        Found {
            points,
            others: List::of(others),
        }
    }

    /// The same components with other points; they are shared. It fails only if memory runs out.
    pub fn share_with(&self, alloc: Global, points: Shared<usize>) -> Result<Found, AllocError>
        ensures { IfOk result (λ f. f ≡ sources points self.now.others) }
    {
        let mut others = Vec::new(alloc);
        for set in self.others.as_slice() {
            others.push(set.share()?)?;
        }
        Ok(Found::of(points, others))
    }

    /// The same, shared. It fails only if memory runs out.
    pub fn share(&self, alloc: Global) -> Result<Found, AllocError>
        ensures { IfOk result (λ f. f ≡ self.now) }
    {
        self.share_with(alloc, self.points.share()?)
    }
}

/// A data set that an operator is given. Its columns are worked out once.
pub struct Operand<'a> {
    structure: &'a Structure,
    columns: Vec<&'a Component>,
    found: Found,
    nothing: Shared<usize>,
}

// Written out, so that a proof sees one call and not the drop of each part.
impl Drop for Operand<'_> {
    fn drop(self) {
        let Operand {
            structure: _,
            columns: _columns,
            found: _found,
            nothing: _nothing,
        } = self;
    }
}

impl<'a> Model for Operand<'a> {
    ghost use Rattle.std.specs.Prelude.{◌≡◌, []};
    ghost use Rattle.vtl_tree.specs.Shown.{shown};
    ghost use Rattle.vtl_tree.specs.Structure.{columns_of};
    ghost use Rattle.vtl_sources.specs.Sources.{Traced, traced};
    ghost use Rattle.vtl_lineage.specs.Numbers.{Numbers};

    ghost Value = { Traced Numbers };

    ghost view = { λ o. traced o.structure.now o.found };

    ghost invariant = { λ o. (shown o.columns.items ≡ columns_of o.structure.now) × (o.nothing ≡ []) };
}

impl<'a> Operand<'a> {
    /// A data set of this structure.
    pub fn of(
        alloc: Global,
        structure: &'a Structure,
        found: Found,
    ) -> Result<Operand<'a>, AllocError>
        ensures { IfOk result (λ o. o ≡ traced structure.now found) }
    {
        let columns = structure.columns(alloc)?;
        let nothing = nothing(alloc)?;
        Ok(Operand {
            structure,
            columns,
            found,
            nothing,
        })
    }

    /// Its structure.
    pub fn structure(&self) -> &'a Structure
        ensures { result.now ≡ self.now.structure }
    {
        self.structure
    }

    /// What was found of it.
    pub fn found(&self) -> &Found
        ensures { result.now ≡ self.now.sources }
    {
        &self.found
    }

    /// What was found of it.
    pub fn into_found(self) -> Found
        ensures { result ≡ self.entry.sources }
    {
        let Operand {
            structure: _structure,
            columns: _columns,
            found,
            nothing: _nothing,
        } = self;
        found
    }

    /// What its points depend on.
    pub fn points(&self) -> &Shared<usize>
        ensures { result.now ≡ self.now.sources.points }
    {
        &self.found.points
    }

    /// No set.
    pub fn nothing(&self) -> &Shared<usize>
        ensures { result.now ≡ [] }
    {
        &self.nothing
    }

    /// What the component in the column at a place depends on, beside the points.
    #[tactic(auto, using(crate::proofs::ByPlace::at_identifier, crate::proofs::ByPlace::at_other, crate::proofs::ByPlace::at_none))]
    pub fn source_at(&self, place: usize) -> &Shared<usize>
        ensures { result.now ≡ source_at merged [] self.now place }
    {
        let width = self.structure.key_width();
        if place < width {
            return &self.nothing;
        }
        let others = self.found.others.as_slice();
        if place - width < others.len() {
            &others[place - width]
        } else {
            &self.nothing
        }
    }

    /// What the component of this name depends on, beside the points.
    pub fn source_named(&self, name: &Txt) -> &Shared<usize>
        ensures { result.now ≡ source_named merged [] self.now name.now }
    {
        self.source_at(place_of(&self.columns, name))
    }

    /// The same of a component that may be left out.
    pub fn source_if_named(&self, name: &Option<Txt>) -> &Shared<usize>
        ensures { result.now ≡ source_if_named merged [] self.now name.now }
    {
        match name {
            Some(name) => self.source_named(name),
            None => &self.nothing,
        }
    }
}

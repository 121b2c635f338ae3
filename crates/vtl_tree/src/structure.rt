// Structures of data sets.

ghost use Rattle.std.specs.Prelude.{◌≡◌, ◌++◌, filter, map, IfOk, OnOk};
ghost use Rattle.vtl_tree.specs.Structure.{columns_of, key_width, of_role, same_role};
ghost use Rattle.vtl_tree.specs.Shown.{shown};

use crate::counting::count_role;
use std::alloc::{AllocError, Global};
use vtl_cell::Kind;
use vtl_text::{List, Shared, Txt};

/// What a component is in its data set.
#[derive(Clone, Copy, Debug, PartialEq, Eq)]
pub enum Role {
    /// It takes part in distinguishing points, and is never null.
    Identifier,
    /// It is a value of the point.
    Measure,
    /// It says something about the point.
    Attribute,
}

/// Whether two roles are the same.
pub fn is_same_role(a: Role, b: Role) -> bool
    ensures { result ≡ same_role a b }
{
    match (a, b) {
        (Role::Identifier, Role::Identifier) => true,
        (Role::Measure, Role::Measure) => true,
        (Role::Attribute, Role::Attribute) => true,
        _ => false,
    }
}

/// A component of a structure.
pub struct Component {
    /// Its name, which no other component of the structure has.
    pub name: Txt,
    /// What it is in the data set.
    pub role: Role,
    /// The kind of its values.
    pub kind: Kind,
    /// The texts that it may have, for a text identifier that lists them.
    pub codes: Option<Shared<Txt>>,
}

// Written out, so that a proof above sees one call and not the drop of each part.
impl Drop for Component {
    fn drop(self) {
        let Component {
            name: _name,
            role: _role,
            kind: _kind,
            codes: _codes,
        } = self;
    }
}

/// The structure of a data set: 1 to `MAX_COMPONENTS` components with distinct names.
pub struct Structure {
    /// The components, in the order in which they were declared.
    pub components: List<Component>,
}

// Written out, so that a proof above sees one call and not the drop of each part.
impl Drop for Structure {
    fn drop(self) {
        let Structure {
            components: _components,
        } = self;
    }
}

impl Structure {
    /// The components in column order: identifiers, then measures, then attributes, each in the order in which
    /// they were declared.
    pub fn columns(&self, alloc: Global) -> Result<Vec<&Component>, AllocError>
        ensures { IfOk result (λ v. shown v.items ≡ columns_of self.now) }
    {
        let mut columns = Vec::new(alloc);
        push_role(&mut columns, self.components.as_slice(), Role::Identifier)?;
        push_role(&mut columns, self.components.as_slice(), Role::Measure)?;
        push_role(&mut columns, self.components.as_slice(), Role::Attribute)?;
        Ok(columns)
    }

    /// The components of a role, in the order in which they were declared.
    pub fn of_role(&self, alloc: Global, role: Role) -> Result<Vec<&Component>, AllocError>
        ensures { IfOk result (λ v. shown v.items ≡ of_role role self.now) }
    {
        let mut columns = Vec::new(alloc);
        push_role(&mut columns, self.components.as_slice(), role)?;
        Ok(columns)
    }

    /// The identifiers, in the order in which they were declared.
    pub fn identifiers(&self, alloc: Global) -> Result<Vec<&Component>, AllocError>
        ensures { IfOk result (λ v. shown v.items ≡ of_role Role.Identifier self.now) }
    {
        self.of_role(alloc, Role::Identifier)
    }

    /// How many identifiers there are.
    pub fn key_width(&self) -> usize
        ensures { result ≡ key_width self.now }
    {
        count_role(self.components.as_slice(), Role::Identifier)
    }
}

// Adds the components of one role.
fn push_role<'a>(
    columns: &mut Vec<&'a Component>,
    components: &'a [Component],
    role: Role,
) -> Result<(), AllocError>
    ensures { OnOk result (shown columns.new.items ≡ shown columns.old.items ++ filter (λ x. same_role x.role role) components.now) }
{
    for component in components {
        if is_same_role(component.role, role) {
            columns.push(component)?;
        }
    }
    Ok(())
}

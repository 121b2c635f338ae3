// Named structures, in order.
ghost use Rattle.std.specs.Prelude.{◌≡◌, ◌<◌, ◌++◌, ◌∷◌, [], true, false, length, slice_get, take, Some, IfOk, IfSome, OnErr, OnOk};
ghost use Rattle.std.specs.Map.{keys_of, lookup};
ghost use Rattle.vtl_lists.specs.Apart.{all_apart};
ghost use Rattle.vtl_tree.specs.Declarations.{lists_of};
ghost use Rattle.std.specs.List.{list_any};
ghost use Rattle.std.specs.Option.{option_copied};
ghost use Rattle.vtl_tree.specs.Structure.{names_of, same_name, same_role};
ghost use Rattle.vtl_tree.specs.Structures.{AreStructures, components_of, has_name, is_declarable, structure_of, with_component, Fits};
ghost use Rattle.vtl_tree.specs.NotNull.{HaveLists, are_not_null, no_sets, not_null_of, with_list, with_name};

use crate::structure::{Component, Role, Structure};
use std::alloc::{AllocError, Global};
use std::marker::Model;
use std::mem;
use vtl_cell::Kind;
use vtl_text::{ByName, List, Txt, is_component_name};

// A structure, and the names of its components that are never null.
struct Declaration {
    structure: Structure,
    not_null: List<Txt>,
}

// Written out, so that a proof above sees one call and not the drop of each part.
impl Drop for Declaration {
    fn drop(self) {
        let Declaration {
            structure: _structure,
            not_null: _not_null,
        } = self;
    }
}

/// Structures with their names, in the order in which they were put. Each is declarable, and the names are distinct. A
/// structure may have a not-null list: the names of components that are no identifiers and are never null. A contract
/// sees the list of the names, each with its structure, and the not-null lists that are not empty, each with its name.
pub struct Structures {
    by_name: ByName<Declaration>,
    alloc: Global,
}

// Written out, so that a proof above sees one call and not the drop of each part.
impl Drop for Structures {
    fn drop(self) {
        let Structures {
            by_name: _by_name,
            alloc: _alloc,
        } = self;
    }
}

impl Model for Structures {
    ghost use Rattle.vtl_tree.specs.NotNull.{Declared};
    ghost use Rattle.vtl_tree.specs.Declarations.{AreDeclarations, declared};

    ghost Value = { Declared };

    ghost view = { λ s. declared s.by_name };

    ghost invariant = { λ s. AreDeclarations s.by_name };
}

impl Structures {
    /// No structures.
    pub fn new(alloc: Global) -> Structures
        ensures { result ≡ no_sets }
    {
        Structures {
            by_name: ByName::new(alloc),
            alloc,
        }
    }

    /// How many structures there are.
    pub fn len(&self) -> usize
        ensures count { result ≡ length self.now.sets }
        ensures structures { AreStructures self.now.sets }
    {
        self.by_name.len()
    }

    /// Adds a structure under a name that none has yet, with an empty not-null list. It fails only if memory runs out.
    pub fn put(&mut self, name: Txt, structure: Structure) -> Result<(), AllocError>
        requires new_name { has_name name self.old.sets ≡ false }
        requires declarable { is_declarable structure ≡ true }
        ensures put { OnOk result (self.new.sets ≡ self.old.sets ++ (name, structure) ∷ []) }
        ensures lists { OnOk result (self.new.not_null ≡ self.old.not_null) }
        ensures failed { OnErr result (self.new ≡ self.old) }
    {
        self.put_with(name, structure, Vec::new(self.alloc))
    }

    /// Adds a structure with its not-null list under a name that none has yet. It fails only if memory runs out.
    pub fn put_with(
        &mut self,
        name: Txt,
        structure: Structure,
        not_null: Vec<Txt>,
    ) -> Result<(), AllocError>
        requires new_name { has_name name self.old.sets ≡ false }
        requires declarable { is_declarable structure ≡ true }
        requires not_null { are_not_null structure not_null.items ≡ true }
        ensures put { OnOk result (self.new.sets ≡ self.old.sets ++ (name, structure) ∷ []) }
        ensures lists { OnOk result (self.new.not_null ≡ self.old.not_null ++ with_list name not_null.items) }
        ensures failed { OnErr result (self.new ≡ self.old) }
    {
        let not_null = List::of(not_null);
        let declaration = Declaration {
            structure,
            not_null,
        };
        self.by_name.put(name, declaration)
    }

    /// Adds a component that fits its data set: the last of those that it has, or the first of a new data set, which
    /// goes last. All not-null lists stay. It fails only if memory runs out.
    pub fn add(&mut self, name: Txt, component: Component) -> Result<(), AllocError>
        requires { Fits component (components_of name self.old.sets) }
        ensures added { OnOk result (self.new.sets ≡ with_component name component self.old.sets) }
        ensures lists { OnOk result (self.new.not_null ≡ self.old.not_null) }
        ensures failed { OnErr result (self.new ≡ self.old) }
    {
        match self.by_name.replace(&name, no_components(self.alloc)) {
            Some(mut declaration) => {
                let pushed = push_component(self.alloc, &mut declaration, component);
                self.by_name.replace(&name, declaration);
                pushed
            }
            None => {
                let structure = one_component(self.alloc, component)?;
                self.put(name, structure)
            }
        }
    }

    /// Adds a component that fits its data set and is no identifier, as `add` does, and its name as the last of the
    /// not-null list of the data set. It fails only if memory runs out.
    pub fn add_not_null(&mut self, name: Txt, component: Component) -> Result<(), AllocError>
        requires fits { Fits component (components_of name self.old.sets) }
        requires value { same_role component.role Role.Identifier ≡ false }
        ensures added { OnOk result (self.new.sets ≡ with_component name component self.old.sets) }
        ensures lists { OnOk result (self.new.not_null ≡ with_name name component.name self.new.sets self.old.not_null) }
        ensures failed { OnErr result (self.new ≡ self.old) }
    {
        let listed = component.name.share()?;
        match self.by_name.replace(&name, no_components(self.alloc)) {
            Some(mut declaration) => {
                let pushed = push_not_null(self.alloc, &mut declaration, component, listed);
                self.by_name.replace(&name, declaration);
                pushed
            }
            None => {
                let structure = one_component(self.alloc, component)?;
                let list = one_name(self.alloc, listed)?;
                self.put_with(name, structure, list)
            }
        }
    }

    /// The structure of a name, if there is one.
    pub fn get(&self, name: &Txt) -> Option<&Structure>
        ensures found { option_copied result ≡ lookup (same_name name.now) self.now.sets }
        ensures declarable { IfSome result (λ s. is_declarable s.now ≡ true) }
    {
        match self.by_name.get(name) {
            Some(declaration) => Some(&declaration.structure),
            None => None,
        }
    }

    /// The not-null list of a name: empty for a name without one.
    pub fn not_null(&self, name: &Txt) -> &[Txt]
        ensures list { result.now ≡ not_null_of name.now self.now.not_null }
        ensures fit { are_not_null (structure_of (components_of name.now self.now.sets)) result.now ≡ true }
    {
        match self.by_name.get(name) {
            Some(declaration) => declaration.not_null.as_slice(),
            None => &[],
        }
    }

    /// The not-null lists that are not empty, each with its name. The names are shared. It fails only if memory runs out.
    pub fn share_lists(&self) -> Result<ByName<List<Txt>>, AllocError>
        ensures lists { IfOk result (λ lists. lists ≡ self.now.not_null) }
        ensures fit { HaveLists self.now.sets self.now.not_null }
    {
        all_lists(self.alloc, &self.by_name)
    }

    /// The name and the structure at a place.
    pub fn at(&self, i: usize) -> (&Txt, &Structure)
        requires { i < length self.now.sets }
        ensures entry { slice_get self.now.sets i ≡ Some (result.0.now, result.1.now) }
        ensures declarable { is_declarable result.1.now ≡ true }
    {
        let (name, declaration) = self.by_name.at(i);
        (name, &declaration.structure)
    }
}

// What stands in place of one that is changed.
fn no_components(alloc: Global) -> Declaration {
    let components = List::of(Vec::new(alloc));
    Declaration {
        structure: Structure { components },
        not_null: List::of(Vec::new(alloc)),
    }
}

// Adds a component after the others.
fn push_component(
    alloc: Global,
    declaration: &mut Declaration,
    component: Component,
) -> Result<(), AllocError>
    ensures added { OnOk result (declaration.new.structure ≡ structure_of (declaration.old.structure.components ++ component ∷ [])) }
    ensures failed { OnErr result (declaration.new.structure ≡ declaration.old.structure) }
    ensures list { declaration.new.not_null ≡ declaration.old.not_null }
{
    let nothing = List::of(Vec::new(alloc));
    let components = mem::replace(&mut declaration.structure.components, nothing);
    let mut components = components.into_vec();
    let pushed = components.push(component);
    declaration.structure.components = List::of(components);
    pushed?;
    Ok(())
}

// The structure of one component.
fn one_component(alloc: Global, component: Component) -> Result<Structure, AllocError>
    ensures { IfOk result (λ s. s ≡ structure_of (component ∷ [])) }
{
    let mut components = Vec::new(alloc);
    components.push(component)?;
    Ok(Structure {
        components: List::of(components),
    })
}

// Adds a component after the others, and its name to the not-null list.
fn push_not_null(
    alloc: Global,
    declaration: &mut Declaration,
    component: Component,
    name: Txt,
) -> Result<(), AllocError>
    ensures added { OnOk result (declaration.new.structure ≡ structure_of (declaration.old.structure.components ++ component ∷ [])) }
    ensures list { OnOk result (declaration.new.not_null ≡ declaration.old.not_null ++ name ∷ []) }
    ensures failed_structure { OnErr result (declaration.new.structure ≡ declaration.old.structure) }
    ensures failed_list { OnErr result (declaration.new.not_null ≡ declaration.old.not_null) }
{
    let count = declaration.not_null.as_slice().len();
    push_name(alloc, declaration, name)?;
    let pushed = push_component(alloc, declaration, component);
    if pushed.is_err() {
        shorten_list(alloc, declaration, count);
    }
    pushed
}

// Adds a name to the not-null list.
fn push_name(alloc: Global, declaration: &mut Declaration, name: Txt) -> Result<(), AllocError>
    ensures list { OnOk result (declaration.new.not_null ≡ declaration.old.not_null ++ name ∷ []) }
    ensures failed { OnErr result (declaration.new.not_null ≡ declaration.old.not_null) }
    ensures structure { declaration.new.structure ≡ declaration.old.structure }
{
    let nothing = List::of(Vec::new(alloc));
    let names = mem::replace(&mut declaration.not_null, nothing);
    let mut names = names.into_vec();
    let pushed = names.push(name);
    declaration.not_null = List::of(names);
    pushed?;
    Ok(())
}

// Leaves as many names of the not-null list.
fn shorten_list(alloc: Global, declaration: &mut Declaration, count: usize)
    ensures list { declaration.new.not_null ≡ take count declaration.old.not_null }
    ensures structure { declaration.new.structure ≡ declaration.old.structure }
{
    let nothing = List::of(Vec::new(alloc));
    let names = mem::replace(&mut declaration.not_null, nothing);
    let mut names = names.into_vec();
    names.truncate(count);
    declaration.not_null = List::of(names);
}

// The list of one name.
fn one_name(alloc: Global, name: Txt) -> Result<Vec<Txt>, AllocError>
    ensures { IfOk result (λ v. v.items ≡ name ∷ []) }
{
    let mut names = Vec::new(alloc);
    names.push(name)?;
    Ok(names)
}

// The same names, which are shared.
fn share_names(alloc: Global, names: &[Txt]) -> Result<Vec<Txt>, AllocError>
    ensures { IfOk result (λ v. v.items ≡ names.now) }
{
    let mut same = Vec::new(alloc);
    for name in names {
        same.push(name.share()?)?;
    }
    Ok(same)
}

// Puts a list under a name that none has yet; an empty one is not kept.
fn put_list(
    alloc: Global,
    lists: &mut ByName<List<Txt>>,
    name: &Txt,
    list: &[Txt],
) -> Result<(), AllocError>
    requires { list_any (same_name name.now) (keys_of lists.old) ≡ false }
    ensures { OnOk result (lists.new ≡ lists.old ++ with_list name.now list.now) }
{
    if list.is_empty() {
        return Ok(());
    }
    let list = List::of(share_names(alloc, list)?);
    lists.put(name.share()?, list)
}

// The lists that are held.
fn all_lists(alloc: Global, held: &ByName<Declaration>) -> Result<ByName<List<Txt>>, AllocError>
    requires { all_apart same_name (keys_of held.now) ≡ true }
    ensures { IfOk result (λ lists. lists ≡ lists_of held.now) }
{
    let mut lists = ByName::new(alloc);
    for i in 0..held.len() {
        let (name, declaration) = held.at(i);
        put_list(alloc, &mut lists, name, declaration.not_null.as_slice())?;
    }
    Ok(lists)
}

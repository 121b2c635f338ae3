// The structures of the two data sets.
ghost use Rattle.std.specs.List.{list_all};
ghost use Rattle.std.specs.Prelude.{◌≡◌, [], true, IfOk};
ghost use Rattle.vtl_text.specs.Words.{is_word_character};
ghost use Rattle.vtl_tree.specs.Measures.{made};
ghost use Rattle.vtl_demo.specs.DataSets as sets;

use std::alloc::{AllocError, Global};
use vtl_cell::Kind;
use vtl_text::{List, Txt};
use vtl_tree::{Component, Role, Structure, Structures};

/// The name of the first data set.
pub(crate) const LEFT_NAME: &str = "D_A";

/// The name of the second data set.
pub(crate) const RIGHT_NAME: &str = "D_B";

/// A text of letters, digits, `_` and `.`. It fails only if memory runs out.
pub(crate) fn word(alloc: Global, text: &str) -> Result<Txt, AllocError>
    requires { list_all is_word_character text.now ≡ true }
    ensures { IfOk result (λ t. t ≡ text.now) }
{
    Txt::new(alloc, text)
}

fn component(alloc: Global, name: &str, role: Role, kind: Kind) -> Result<Component, AllocError>
    requires { list_all is_word_character name.now ≡ true }
    ensures { IfOk result (λ x. x ≡ made name.now role kind) }
{
    Ok(Component {
        name: word(alloc, name)?,
        role,
        kind,
        codes: None,
    })
}

/// The structure of the first data set. It fails only if memory runs out.
pub(crate) fn left_structure(alloc: Global) -> Result<Structure, AllocError>
    ensures { IfOk result (λ s. s ≡ sets.left_structure) }
{
    let mut components = Vec::new(alloc);
    components.push(component(alloc, "Id_1", Role::Identifier, Kind::Int)?)?;
    components.push(component(alloc, "Id_2", Role::Identifier, Kind::Text)?)?;
    components.push(component(alloc, "Me_1", Role::Measure, Kind::Int)?)?;
    Ok(Structure {
        components: List::of(components),
    })
}

/// The structure of the second data set. It fails only if memory runs out.
pub(crate) fn right_structure(alloc: Global) -> Result<Structure, AllocError>
    ensures { IfOk result (λ s. s ≡ sets.right_structure) }
{
    let mut components = Vec::new(alloc);
    components.push(component(alloc, "Id_1", Role::Identifier, Kind::Int)?)?;
    components.push(component(alloc, "Me_2", Role::Measure, Kind::Int)?)?;
    Ok(Structure {
        components: List::of(components),
    })
}

/// Both structures, by the names of the data sets. It fails only if memory runs out.
pub(crate) fn structures(alloc: Global) -> Result<Structures, AllocError>
    ensures sets { IfOk result (λ s. s.sets ≡ sets.declared) }
    ensures lists { IfOk result (λ s. s.not_null ≡ []) }
{
    let mut structures = Structures::new(alloc);
    structures.put(word(alloc, LEFT_NAME)?, left_structure(alloc)?)?;
    structures.put(word(alloc, RIGHT_NAME)?, right_structure(alloc)?)?;
    Ok(structures)
}

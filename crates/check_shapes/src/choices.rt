// Components that are chosen by their roles and names.
ghost use Rattle.check_faults.specs.Answers.{Answers};
ghost use Rattle.vtl_tree.specs.Choices.{chosen};
ghost use Rattle.check_shapes.specs.Choices.{choice_form};
ghost use Rattle.check_shapes.specs.Shape.{shaped};

use crate::{check_names, shaped};
use check_faults::TypeErr;
use std::alloc::Global;
use vtl_text::Txt;
use vtl_tree::{Choice, Structure, Wanted, push_chosen};

/// The structure of the chosen components.
pub fn choose(
    alloc: Global,
    choice: Choice,
    structure: &Structure,
    names: &[Txt],
) -> Result<Structure, TypeErr>
    ensures { Answers (λ s. s) result (shaped (chosen choice names.now structure.now.components)) }
{
    let mut out = Vec::new(alloc);
    push_chosen(&mut out, choice, names, structure.components.as_slice())?;
    shaped(alloc, out)
}

/// The structure of the components that are chosen by names of the wanted role, as `known` says of each. So `keep` and
/// `drop` are over measures and attributes, `sub` drops identifiers, and `#` keeps one measure.
pub fn choose_known(
    alloc: Global,
    wanted: Wanted,
    choice: Choice,
    structure: &Structure,
    names: &[Txt],
) -> Result<Structure, TypeErr>
    ensures { Answers (λ s. s) result (choice_form wanted choice names.now structure.now.components) }
{
    check_names(wanted, structure.components.as_slice(), names)?;
    choose(alloc, choice, structure, names)
}

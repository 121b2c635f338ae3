// The operands of a join, as structures.

use crate::Structure;
use vtl_text::Txt;

/// An operand of a join.
#[derive(Drop)]
pub struct Operand {
    /// Its alias, which no other operand has.
    pub alias: Txt,
    /// Its structure.
    pub structure: Structure,
}

// What the readers of expressions give.

use vtl_lexer::Token;

/// A tree, with the number of levels that the budget has above its depth, and the tokens that are left.
#[derive(Drop)]
pub(crate) struct Read<'t, T> {
    pub(crate) tree: T,
    pub(crate) spare: usize,
    pub(crate) rest: &'t [Token],
}

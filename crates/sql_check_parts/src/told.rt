// What is known about an expression.
//
// Told is what the program found out, typed is what breaks no rule: `Told`, `IsSelectTold`, `IsQueryTold` are a kind
// or columns with the least rule.
ghost use Rattle.std.specs.Prelude.{◌≡◌};
ghost use Rattle.sql_check_parts.specs.Scopes.{or_null};

use crate::SqlRule;
use vtl_cell::Kind;

/// The kind of an expression, and the least of the rules that it breaks.
#[derive(Clone, Copy, Debug, PartialEq, Eq)]
pub struct Told {
    /// The kind; that of null where there is none, since a rule is broken then.
    pub kind: Kind,
    /// The least of the rules that are broken, if any is.
    pub fault: Option<SqlRule>,
}

/// A kind, or that of null where there is none.
pub fn or_null(kind: Option<Kind>) -> Kind
    ensures { result ≡ or_null kind }
{
    match kind {
        Some(kind) => kind,
        None => Kind::Null,
    }
}

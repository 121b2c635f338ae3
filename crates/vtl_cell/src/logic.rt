// Logic with three values, where None is null.
ghost use Rattle.std.specs.Prelude.{◌≡◌};
ghost use Rattle.vtl_cell.specs.Logic.{not_of, and_of, or_of, xor_of};

/// The negation: null of null.
pub fn not3(a: Option<bool>) -> Option<bool>
    ensures { result ≡ not_of a }
{
    a.map(|b| !b)
}

/// Whether both hold: false where one is false, even with null; otherwise null where one is null.
pub fn and3(a: Option<bool>, b: Option<bool>) -> Option<bool>
    ensures { result ≡ and_of a b }
{
    match (a, b) {
        (Some(false), _) | (_, Some(false)) => Some(false),
        (Some(true), Some(true)) => Some(true),
        _ => None,
    }
}

/// Whether one holds: true where one is true, even with null; otherwise null where one is null.
pub fn or3(a: Option<bool>, b: Option<bool>) -> Option<bool>
    ensures { result ≡ or_of a b }
{
    match (a, b) {
        (Some(true), _) | (_, Some(true)) => Some(true),
        (Some(false), Some(false)) => Some(false),
        _ => None,
    }
}

/// Whether exactly one holds: null where one is null.
pub fn xor3(a: Option<bool>, b: Option<bool>) -> Option<bool>
    ensures { result ≡ xor_of a b }
{
    match (a, b) {
        (Some(x), Some(y)) => Some(x != y),
        _ => None,
    }
}

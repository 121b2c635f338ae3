// The kinds of values.
ghost use Rattle.std.specs.Prelude.{◌≡◌};
ghost use Rattle.vtl_cell.specs.Kinds.{same_kind};

/// The kind of a component or of an expression's value. Null belongs to each kind.
#[derive(Clone, Copy, Debug, PartialEq, Eq)]
pub enum Kind {
    /// Null alone: the kind of the literal `null`.
    Null,
    /// True or false.
    Bool,
    /// A whole number.
    Int,
    /// A number with digits after its point, as many as the profile's scale says.
    Num,
    /// A text.
    Text,
    /// A day of the calendar.
    Day,
    /// A period of a year.
    Period,
}

/// Whether two kinds are the same. An integer and a number are two kinds.
pub fn is_same_kind(a: Kind, b: Kind) -> bool
    ensures { result ≡ same_kind a b }
{
    match (a, b) {
        (Kind::Null, Kind::Null) => true,
        (Kind::Bool, Kind::Bool) => true,
        (Kind::Int, Kind::Int) => true,
        (Kind::Num, Kind::Num) => true,
        (Kind::Text, Kind::Text) => true,
        (Kind::Day, Kind::Day) => true,
        (Kind::Period, Kind::Period) => true,
        _ => false,
    }
}

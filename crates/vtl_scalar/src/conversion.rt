// Values as those of the kind that an expression has.
//
// A value is made one of its expression's kind (`to_kind`): `nvl` of a null among numbers and the literal 0 is the
// number 0, which the operands alone do not tell.
ghost use Rattle.std.specs.Prelude.{◌≡◌};
ghost use Rattle.vtl_cell.specs.Conversion.{as_kind};

use crate::operands::as_number;
use vtl_cell::{Cell, Kind};
use vtl_decimal::{Fault, Profile};

/// The value as one of an expression of this kind: where the kind is number, an integer becomes the number that equals
/// it; every other value stays.
///
/// Range for an integer that is none of the profile.
pub fn to_kind(kind: Kind, value: Cell, p: &Profile) -> Result<Cell, Fault>
    ensures { result ≡ as_kind p.now kind value }
{
    match (kind, value) {
        (Kind::Num, Cell::Int(n)) => Ok(Cell::Num(as_number(n, p)?)),
        (_, value) => Ok(value),
    }
}

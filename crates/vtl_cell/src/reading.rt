// The values that texts stand for.
ghost use Rattle.std.specs.Prelude.{◌≡◌, IfOk};
ghost use Rattle.vtl_cell.specs.Reading.{bool_read, reads};

use crate::{Cell, Kind};
use std::alloc::{AllocError, Global};
use vtl_decimal::{Profile, read, read_whole};
use vtl_text::Txt;
use vtl_time::{read_day, read_period};

/// The value of a kind that the text stands for, or None where it stands for none.
///
/// `true` and `false` are booleans, in letters of either case; a numeral is a number, rounded once to the profile's
/// scale, and an integer where its value is whole; `YYYY-MM-DD` is a day; a period is spelled as `read_period` says.
/// Each text, the empty one too, is a text. No text is null. It fails only if memory runs out.
pub fn read_cell(
    alloc: Global,
    kind: Kind,
    t: &str,
    p: &Profile,
) -> Result<Option<Cell>, AllocError>
    ensures { IfOk result (λ o. o ≡ reads p.now kind t.now) }
{
    Ok(match kind {
        Kind::Null => None,
        Kind::Bool => read_bool(t).map(Cell::Bool),
        Kind::Int => read_whole(t, p).ok().map(Cell::Int),
        Kind::Num => read(t, p).ok().map(Cell::Num),
        Kind::Text => Some(Cell::Text(Txt::new(alloc, t)?)),
        Kind::Day => read_day(t).map(Cell::Day),
        Kind::Period => read_period(t).map(Cell::Period),
    })
}

// The boolean that the text names.
fn read_bool(t: &str) -> Option<bool>
    ensures { result ≡ bool_read t.now }
{
    if t.eq_ignore_ascii_case("true") {
        Some(true)
    } else if t.eq_ignore_ascii_case("false") {
        Some(false)
    } else {
        None
    }
}

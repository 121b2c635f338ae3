// The texts that values are written as.
ghost use Rattle.std.specs.Prelude.{◌≡◌, ◌++◌, OnOk, OnErr};
ghost use Rattle.vtl_cell.specs.Held.{IsHeld};
ghost use Rattle.vtl_cell.specs.Writing.{text_of, ReadsBack};

use crate::Cell;
use std::alloc::AllocError;
use vtl_decimal::{Profile, write, write_whole};
use vtl_time::{write_day, write_period};

/// Appends the text of the cell, which `read_cell` reads as the same value: nothing for null, `true` or `false`, the
/// digits of an integer, a number as `vtl_decimal::write` writes it, a text as it is, a day as `YYYY-MM-DD` and a
/// period as `write_period` writes it.
///
/// It fails only if memory runs out, and then leaves `out` as it was. The clause `held` says which cells there are:
/// those whose parts are in the range of their types.
pub fn write_cell(c: &Cell, p: &Profile, out: &mut Vec<u8>) -> Result<(), AllocError>
    ensures ok { OnOk result (out.new.items ≡ out.old.items ++ text_of p.now c.now) }
    ensures err { OnErr result (out.new.items ≡ out.old.items) }
    ensures reads_back { ReadsBack p.now c.now }
    ensures held { IsHeld c.now }
{
    match c {
        Cell::Null => Ok(()),
        Cell::Bool(true) => out.extend_from_slice(b"true"),
        Cell::Bool(false) => out.extend_from_slice(b"false"),
        Cell::Int(n) => write_whole(*n, out),
        Cell::Num(n) => write(*n, p, out),
        Cell::Text(t) => out.extend_from_slice(t.as_str().as_bytes()),
        Cell::Day(d) => write_day(*d, out),
        Cell::Period(q) => write_period(*q, out),
    }
}

// The order of values, periods that are shifted, names.
use crate::notation::{cell, profile, text_of};
use crate::rows::Row;
use crate::trouble::CaseErr;
use std::alloc::{AllocError, Global};
use std::cmp::Ordering;
use vtl_cell::{Cell, compare, is_same};
use vtl_text::{is_component_name, is_name, is_reserved, is_word};
use vtl_time::{read_period, shift, write_period};

// Nothing where the first value is strictly before the second.
pub(crate) fn ordered(alloc: Global, row: &Row) -> Result<String, CaseErr> {
    let profile = profile("6", "half_up")?;
    let word = row.field(0);
    let (first, second) = word.split_once("/").unwrap_or((word, word));
    let low = cell(alloc, first, row.field(1), &profile)?;
    let high = cell(alloc, second, row.field(2), &profile)?;
    Ok(String::from_str(alloc, fault_of_order(&low, &high))?)
}

fn fault_of_order(low: &Cell, high: &Cell) -> &'static str {
    if !is_itself(low) || !is_itself(high) {
        "a value that is not equal to itself"
    } else if compare(low, high) != Ordering::Less
        || compare(high, low) != Ordering::Greater
        || is_same(low, high)
    {
        "another order"
    } else {
        ""
    }
}

fn is_itself(cell: &Cell) -> bool {
    is_same(cell, cell) && compare(cell, cell) == Ordering::Equal
}

// The period this many periods later.
pub(crate) fn shifted(alloc: Global, row: &Row) -> Result<String, CaseErr> {
    let period = read_period(row.field(0)).ok_or(CaseErr::Period)?;
    let by: i64 = row.field(1).parse().ok().ok_or(CaseErr::Number)?;
    let Some(later) = shift(period, by) else {
        return Ok(String::from_str(alloc, "none")?);
    };
    let mut out = Vec::new(alloc);
    write_period(later, &mut out)?;
    text_of(out)
}

// Whether the text is a word, a reserved word, a name and a component's name.
pub(crate) fn named(alloc: Global, row: &Row) -> Result<String, AllocError> {
    let text = row.field(0);
    format!(in alloc;
        "{},{},{},{}",
        answer(is_word(text)),
        answer(is_reserved(text)),
        answer(is_name(text)),
        answer(is_component_name(text))
    )
}

fn answer(is_so: bool) -> &'static str {
    if is_so { "yes" } else { "no" }
}

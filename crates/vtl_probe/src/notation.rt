// How tables write profiles, kinds and values.
use crate::trouble::CaseErr;
use crate::words::looked_up;
use std::alloc::Global;
use vtl_cell::{Cell, Kind, read_cell};
use vtl_decimal::{Profile, Rounding};

pub(crate) fn profile(scale: &str, rounding: &str) -> Result<Profile, CaseErr> {
    let roundings = [
        ("half_up", Rounding::HalfUp),
        ("half_even", Rounding::HalfEven),
        ("down", Rounding::Down),
    ];
    let rounding = looked_up(rounding, &roundings).ok_or(CaseErr::Rounding)?;
    let scale: u8 = scale.parse().ok().ok_or(CaseErr::Scale)?;
    Profile::new(scale, rounding).ok_or(CaseErr::Scale)
}

const KINDS: [Kind; 7] = [
    Kind::Null,
    Kind::Bool,
    Kind::Int,
    Kind::Num,
    Kind::Text,
    Kind::Day,
    Kind::Period,
];

fn kind(word: &str) -> Result<Kind, CaseErr> {
    for kind in &KINDS {
        if kind_word(*kind) == word {
            return Ok(*kind);
        }
    }
    Err(CaseErr::Kind)
}

// Kinds have the words of the structures file, and null has its own.
pub(crate) fn kind_word(kind: Kind) -> &'static str {
    match kind {
        Kind::Null => "null",
        Kind::Bool => "boolean",
        Kind::Int => "integer",
        Kind::Num => "number",
        Kind::Text => "string",
        Kind::Day => "date",
        Kind::Period => "time_period",
    }
}

// The value of a kind that a text stands for. An integer may be one that no profile has.
pub(crate) fn cell(
    alloc: Global,
    word: &str,
    text: &str,
    profile: &Profile,
) -> Result<Cell, CaseErr> {
    match kind(word)? {
        Kind::Null => Ok(Cell::Null),
        Kind::Int => Ok(Cell::Int(text.parse().ok().ok_or(CaseErr::Number)?)),
        other => read_cell(alloc, other, text, profile)?.ok_or(CaseErr::Value),
    }
}

// What was written, which is UTF-8 where the writer is right.
pub(crate) fn text_of(bytes: Vec<u8>) -> Result<String, CaseErr> {
    String::from_utf8(bytes).ok().ok_or(CaseErr::Text)
}

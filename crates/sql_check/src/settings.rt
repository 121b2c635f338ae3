// SET.
ghost use Rattle.std.specs.Prelude.{◌≡◌, ◌≤◌, true, pos};
ghost use Rattle.vtl_cell.specs.Literals.{lies_between};
ghost use Rattle.sql_check_parts.specs.Statements.{scale_of, scale_written};
ghost use Rattle.sql_check.specs.Answers.{Sets};

use vtl_cell::{integer_written, lies_between};
use vtl_decimal::{Profile, Rounding};
use vtl_text::Txt;

// The profile of scale 0, by which the digits of a scale are read.
fn plain() -> Profile
    ensures scale { result.scale ≡ 0 }
    ensures rounding { result.rounding ≡ Rounding.Down }
{
    match Profile::new(0, Rounding::Down) {
        Some(profile) => profile,
        None => unreachable!(),
    }
}

fn scale_written(digits: &Txt) -> Option<i64>
    ensures { result ≡ scale_written digits.now }
{
    integer_written(&plain(), digits)
}

// The scale that is written, which is from 0 to 9.
fn scale_of(written: Option<i64>) -> u8
    requires { lies_between (pos 0) (pos 9) written ≡ true }
    ensures value { result ≡ scale_of written }
    ensures small { result ≤ 9 }
{
    match written {
        Some(scale) => scale as u8,
        None => 0,
    }
}

/// The profile of SET; none where its scale is over 9.
pub fn settings(digits: &Txt, rounding: Rounding) -> Option<Profile>
    ensures { Sets digits.now rounding result }
{
    let written = scale_written(digits);
    if lies_between(0, 9, written) {
        Profile::new(scale_of(written), rounding)
    } else {
        None
    }
}

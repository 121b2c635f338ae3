ghost use Rattle.std.specs.Prelude.{◌≡◌, ◌≤◌, ◌<◌, ◌↔◌, IsSome, IfSome};

use std::marker::Model;

/// How a quotient that is not whole becomes whole.
#[derive(Clone, Copy, Debug, PartialEq, Eq)]
pub enum Rounding {
    /// To the nearest whole number, a half away from zero.
    HalfUp,
    /// To the nearest whole number, a half to the even neighbour.
    HalfEven,
    /// Toward zero.
    Down,
}

/// How many digits a number has after its point (0 to 9), and how results are rounded to them.
#[derive(Clone, Copy, Debug, PartialEq, Eq)]
pub struct Profile {
    scale: u8,
    rounding: Rounding,
}

impl Model for Profile {
    ghost use Rattle.std.specs.Prelude.{◌≤◌};
    ghost use Rattle.vtl_decimal.specs.Settings.{Settings};

    ghost Value = { Settings };

    ghost view = { λ p. record { scale = p.scale; rounding = p.rounding } };

    ghost invariant = { λ p. p.scale ≤ 9 };

    ghost inverse = { λ v. record { scale = v.scale; rounding = v.rounding } };
}

impl Profile {
    /// The profile of this scale and rounding, or None where the scale is over 9.
    pub fn new(scale: u8, rounding: Rounding) -> Option<Profile>
        ensures valid { IsSome result ↔ (scale ≤ 9) }
        ensures scale { IfSome result (λ p. p.scale ≡ scale) }
        ensures rounding { IfSome result (λ p. p.rounding ≡ rounding) }
    {
        if scale <= 9 {
            Some(Profile { scale, rounding })
        } else {
            None
        }
    }

    /// The number of digits after the point.
    pub fn scale(&self) -> u8
        ensures value { result ≡ self.now.scale }
        ensures in_range { result ≤ 9 }
    {
        self.scale
    }

    /// The rule by which results are rounded.
    pub fn rounding(&self) -> Rounding
        ensures { result ≡ self.now.rounding }
    {
        self.rounding
    }
}

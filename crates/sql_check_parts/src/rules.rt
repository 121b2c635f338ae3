// The rules of typing, and the least of those that are broken.
//
// The rules that a part breaks are a list, and the fault is its least member: no order of parts is in the definition.
// The code keeps the least alone.
ghost use Rattle.std.specs.Prelude.{◌≡◌, [], ◌∷◌};
ghost use Rattle.sql_check_parts.specs.Rules.{broken, least, lesser, lesser_rule, number_of};

use std::marker::Model;

/// A rule of typing, named by what breaks it.
#[derive(Clone, Copy, Debug, PartialEq, Eq)]
pub enum SqlRule {
    /// A source, a SERIES or an EXISTS is of a table, or an EXPORT has one, that no earlier statement gives.
    UnknownTable = 1,
    /// A table has a name that is taken, a source has the alias of another, or the name of a file is no word.
    MisnamedTable = 2,
    /// A column is not among those that can be seen.
    UnknownColumn = 3,
    /// The names of columns, items or keys repeat, or are no columns of the table.
    MisnamedColumn = 4,
    /// Operands, conditions or literals are not of the kinds that are asked for, or not as many.
    UnfitKind = 5,
    /// A literal has no value at the scale of the script, or one outside the interval of its place.
    UnfitLiteral = 6,
    /// The selects of a UNION ALL have different names, or kinds that do not go together.
    UnlikeSelects = 7,
    /// An aggregate stands in no group, or a column in a group is not one of GROUP BY.
    OutsideGroup = 8,
    /// A window stands in a group, or without the frame and the order of its call.
    MisplacedWindow = 9,
    /// A column is null alone.
    NullColumn = 10,
    /// An equality of EXISTS does not tie a column of its table to one outside, of the same kind.
    UntiedEquality = 11,
    /// Codes stand where they may not, or there are too many columns.
    CodesOrCount = 12,
    /// A SERIES names a column that its table does not have, or one twice, or is ON a column that holds no periods.
    MisnamedSeries = 13,
}

impl SqlRule {
    /// The number by which it is reported.
    pub fn number(self) -> u8
        ensures { result ≡ number_of self }
    {
        self as u8
    }

    // The rule with the lesser number.
    fn lesser(self, other: SqlRule) -> SqlRule
        ensures { result ≡ lesser_rule self other }
    {
        if self.number() <= other.number() {
            self
        } else {
            other
        }
    }
}

/// A rule, and whether it is broken. A contract sees the pair of them.
#[derive(Drop)]
pub struct Test {
    /// The rule.
    pub rule: SqlRule,
    /// Whether it is broken.
    pub is_broken: bool,
}

impl Model for Test {
    ghost use Rattle.std.specs.Prelude.{Bool};
    ghost use Rattle.sql_check_parts.specs.declared.rules.SqlRule.{SqlRule};

    ghost Value = { SqlRule × Bool };

    ghost view = { λ t. (t.rule, t.is_broken) };
}

/// The lesser of two rules that are broken, where any is.
pub fn lesser(a: Option<SqlRule>, b: Option<SqlRule>) -> Option<SqlRule>
    ensures { result ≡ lesser a b }
{
    match (a, b) {
        (None, b) => b,
        (Some(a), None) => Some(a),
        (Some(a), Some(b)) => Some(a.lesser(b)),
    }
}

// The rule of a test, where it is broken.
#[tactic(auto, unfolding(crate::specs::Rules::least))]
fn if_broken(test: &Test) -> Option<SqlRule>
    ensures { result ≡ least (broken (test.now ∷ [])) }
{
    if test.is_broken {
        Some(test.rule)
    } else {
        None
    }
}

/// The least of the broken rules; each rule is given with whether it is broken.
pub fn least_broken(tests: &[Test]) -> Option<SqlRule>
    ensures { result ≡ least (broken tests.now) }
{
    let mut least = None;
    for test in tests {
        least = lesser(least, if_broken(test));
    }
    least
}

// The rules of typing.
ghost use Rattle.std.specs.Prelude.{◌≡◌};
ghost use Rattle.check_faults.specs.Rules.{number_of};

/// A rule of typing, named by what breaks it.
#[derive(Clone, Copy, Debug, PartialEq, Eq)]
pub enum Rule {
    /// A data set is neither declared nor an earlier result.
    UnknownDataset = 1,
    /// A result or a ruleset has the name of a declared data set, an earlier result or an earlier ruleset.
    NameTaken = 2,
    /// A ruleset is unknown, of the other form or about another variable.
    UnknownRuleset = 3,
    /// A component, a variable or an alias is unknown, or a name of several operands lacks its alias.
    UnknownComponent = 4,
    /// A name occurs twice in a list of names.
    RepeatedName = 5,
    /// A component has a role that its place does not allow.
    WrongRole = 6,
    /// Kinds or the number of operands do not fit the operator, or a condition is not boolean.
    WrongKind = 7,
    /// A literal has no value, is outside its interval or is missing where one is needed.
    WrongLiteral = 8,
    /// The identifiers of operands do not agree.
    IdentifiersDisagree = 9,
    /// The measures of operands do not agree, or are not as many as required.
    MeasuresDisagree = 10,
    /// A component of the result would occur twice, or a code of `pivot` is no component name.
    RepeatedComponent = 11,
    /// The result would have no component or too many.
    ComponentCount = 12,
    /// The identifier of `pivot` has no codes.
    NoCodes = 13,
    /// A data set stands where a scalar or a component is needed, or the other way round.
    DatasetOrValue = 14,
    /// An aggregate or a component stands where aggregates do not allow it.
    AggregateMisuse = 15,
    /// An analytic call stands where none may, or its order or frame does not fit its form.
    AnalyticMisuse = 16,
    /// Two rules of a ruleset have the same identifier, or an item occurs twice in one.
    RepeatedRule = 17,
    /// Items of a hierarchical ruleset depend on themselves, or two `=` rules have one left item.
    CircularHierarchy = 18,
    /// A target of `calc` or a measure of the result has the kind of null alone.
    NullKind = 19,
    /// The script has too many nodes and rules.
    TooManyNodes = 20,
    /// An operand of a join that is no plain name lacks an alias, or `using` stands on a full or cross join.
    JoinMisuse = 21,
    /// The operand of a time operator has not exactly one identifier that holds periods.
    NoTime = 22,
}

impl Rule {
    /// The number that an answer gives for the rule.
    pub fn number(self) -> u8
        ensures { result ≡ number_of self }
    {
        self as u8
    }
}

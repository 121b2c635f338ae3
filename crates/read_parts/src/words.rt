// Words and signs that stand for one thing each.
//
// A group of words has one table for a reader, `x_token`; `x_at` is its mirror. A list of pairs would turn the
// program's match into a loop over up to 41 words at each operand.
ghost use Rattle.std.specs.Prelude.{◌≡◌, option_map};
ghost use Rattle.vtl_grammar.specs.Faults.{kinds};
ghost use Rattle.vtl_grammar.specs.Grammar.{Tokens};
ghost use Rattle.vtl_grammar.specs.Reading.{maybe_word, word};
ghost use Rattle.read_parts.specs.Fronts.{front_view, same};

use crate::front::{Front, next};
use vtl_grammar::CallForm;
use vtl_lexer::{Keyword, Sign, Token, TokenKind};
use vtl_syntax::{
    Addition, AggregateName, AssignKind, BasicOut, BinaryOp, CastKind, CheckOut, Comparison,
    DifferenceName, Direction, Filling, FunctionName, GroupKind, HierInput, HierOut, JoinKind,
    Mode, Retain, SetOpName, ShiftName, Side, TimeName, UnaryOp, ValueWindowName, WrittenRole,
};

/// A word or a sign that is one of a group.
pub trait WordGroup: Copy {
    ghost use Rattle.std.specs.Prelude.{Option};
    ghost use Rattle.vtl_lexer.specs.declared.token.TokenKind.{TokenKind};

    // What of the group a token spells.
    ghost spelled: { TokenKind → Option Self };

    /// What of the group the token spells, if it does.
    fn spelled_by(kind: &TokenKind) -> Option<Self>
        ensures { result ≡ spelled kind.now };
}

/// The word at the front.
pub fn word<W: WordGroup>(tokens: &[Token]) -> Option<Front<'_, W>>
    ensures { option_map (front_view same) result ≡ word W.spelled (kinds tokens.now) }
{
    let (first, rest) = next(tokens)?;
    let part = W::spelled_by(first)?;
    Some(Front { part, rest })
}

/// The word at the front, if one stands there.
pub fn maybe_word<W: WordGroup>(tokens: &[Token]) -> Front<'_, Option<W>>
    ensures { front_view same result ≡ maybe_word W.spelled (kinds tokens.now) }
{
    match word(tokens) {
        Some(Front { part, rest }) => Front {
            part: Some(part),
            rest,
        },
        None => Front {
            part: None,
            rest: tokens,
        },
    }
}

impl WordGroup for Mode {
    ghost use Rattle.vtl_grammar.specs.Words.{mode_at};

    ghost spelled = { mode_at };

    fn spelled_by(kind: &TokenKind) -> Option<Mode> {
        match kind {
            TokenKind::Keyword(Keyword::NonNull) => Some(Mode::NonNull),
            TokenKind::Keyword(Keyword::NonZero) => Some(Mode::NonZero),
            TokenKind::Keyword(Keyword::PartialNull) => Some(Mode::PartialNull),
            TokenKind::Keyword(Keyword::PartialZero) => Some(Mode::PartialZero),
            TokenKind::Keyword(Keyword::AlwaysNull) => Some(Mode::AlwaysNull),
            TokenKind::Keyword(Keyword::AlwaysZero) => Some(Mode::AlwaysZero),
            _ => None,
        }
    }
}

impl WordGroup for BasicOut {
    ghost use Rattle.vtl_grammar.specs.Words.{basic_out_at};

    ghost spelled = { basic_out_at };

    fn spelled_by(kind: &TokenKind) -> Option<BasicOut> {
        match kind {
            TokenKind::Keyword(Keyword::Invalid) => Some(BasicOut::Invalid),
            TokenKind::Keyword(Keyword::All) => Some(BasicOut::All),
            _ => None,
        }
    }
}

impl WordGroup for CheckOut {
    ghost use Rattle.vtl_grammar.specs.Words.{check_out_at};

    ghost spelled = { check_out_at };

    fn spelled_by(kind: &TokenKind) -> Option<CheckOut> {
        match kind {
            TokenKind::Keyword(Keyword::Invalid) => Some(CheckOut::Invalid),
            TokenKind::Keyword(Keyword::All) => Some(CheckOut::All),
            TokenKind::Keyword(Keyword::AllMeasures) => Some(CheckOut::AllMeasures),
            _ => None,
        }
    }
}

impl WordGroup for HierInput {
    ghost use Rattle.vtl_grammar.specs.Words.{hier_input_at};

    ghost spelled = { hier_input_at };

    fn spelled_by(kind: &TokenKind) -> Option<HierInput> {
        match kind {
            TokenKind::Keyword(Keyword::Dataset) => Some(HierInput::Dataset),
            TokenKind::Keyword(Keyword::Rule) => Some(HierInput::Rule),
            TokenKind::Keyword(Keyword::RulePriority) => Some(HierInput::RulePriority),
            _ => None,
        }
    }
}

impl WordGroup for HierOut {
    ghost use Rattle.vtl_grammar.specs.Words.{hier_out_at};

    ghost spelled = { hier_out_at };

    fn spelled_by(kind: &TokenKind) -> Option<HierOut> {
        match kind {
            TokenKind::Keyword(Keyword::Computed) => Some(HierOut::Computed),
            TokenKind::Keyword(Keyword::All) => Some(HierOut::All),
            _ => None,
        }
    }
}

impl WordGroup for Retain {
    ghost use Rattle.vtl_grammar.specs.Words.{retain_at};

    ghost spelled = { retain_at };

    fn spelled_by(kind: &TokenKind) -> Option<Retain> {
        match kind {
            TokenKind::Keyword(Keyword::All) => Some(Retain::All),
            TokenKind::Keyword(Keyword::True) => Some(Retain::True),
            TokenKind::Keyword(Keyword::False) => Some(Retain::False),
            _ => None,
        }
    }
}

impl WordGroup for Filling {
    ghost use Rattle.vtl_grammar.specs.Words.{filling_at};

    ghost spelled = { filling_at };

    fn spelled_by(kind: &TokenKind) -> Option<Filling> {
        match kind {
            TokenKind::Keyword(Keyword::Single) => Some(Filling::Single),
            TokenKind::Keyword(Keyword::All) => Some(Filling::All),
            _ => None,
        }
    }
}

impl WordGroup for WrittenRole {
    ghost use Rattle.vtl_grammar.specs.Words.{written_role_at};

    ghost spelled = { written_role_at };

    fn spelled_by(kind: &TokenKind) -> Option<WrittenRole> {
        match kind {
            TokenKind::Keyword(Keyword::Measure) => Some(WrittenRole::Measure),
            TokenKind::Keyword(Keyword::Attribute) => Some(WrittenRole::Attribute),
            _ => None,
        }
    }
}

impl WordGroup for GroupKind {
    ghost use Rattle.vtl_grammar.specs.Words.{group_kind_at};

    ghost spelled = { group_kind_at };

    fn spelled_by(kind: &TokenKind) -> Option<GroupKind> {
        match kind {
            TokenKind::Keyword(Keyword::By) => Some(GroupKind::By),
            TokenKind::Keyword(Keyword::Except) => Some(GroupKind::Except),
            _ => None,
        }
    }
}

impl WordGroup for Direction {
    ghost use Rattle.vtl_grammar.specs.Words.{direction_at};

    ghost spelled = { direction_at };

    fn spelled_by(kind: &TokenKind) -> Option<Direction> {
        match kind {
            TokenKind::Keyword(Keyword::Asc) => Some(Direction::Ascending),
            TokenKind::Keyword(Keyword::Desc) => Some(Direction::Descending),
            _ => None,
        }
    }
}

impl WordGroup for Side {
    ghost use Rattle.vtl_grammar.specs.Words.{side_at};

    ghost spelled = { side_at };

    fn spelled_by(kind: &TokenKind) -> Option<Side> {
        match kind {
            TokenKind::Keyword(Keyword::Preceding) => Some(Side::Preceding),
            TokenKind::Keyword(Keyword::Following) => Some(Side::Following),
            _ => None,
        }
    }
}

impl WordGroup for CastKind {
    ghost use Rattle.vtl_grammar.specs.Words.{cast_kind_at};

    ghost spelled = { cast_kind_at };

    fn spelled_by(kind: &TokenKind) -> Option<CastKind> {
        match kind {
            TokenKind::Keyword(Keyword::Date) => Some(CastKind::Date),
            TokenKind::Keyword(Keyword::TimePeriod) => Some(CastKind::TimePeriod),
            _ => None,
        }
    }
}

impl WordGroup for Comparison {
    ghost use Rattle.vtl_grammar.specs.Words.{comparison_at};

    ghost spelled = { comparison_at };

    fn spelled_by(kind: &TokenKind) -> Option<Comparison> {
        match kind {
            TokenKind::Sign(Sign::Equal) => Some(Comparison::Equal),
            TokenKind::Sign(Sign::Less) => Some(Comparison::Less),
            TokenKind::Sign(Sign::LessOrEqual) => Some(Comparison::LessOrEqual),
            TokenKind::Sign(Sign::Greater) => Some(Comparison::Greater),
            TokenKind::Sign(Sign::GreaterOrEqual) => Some(Comparison::GreaterOrEqual),
            _ => None,
        }
    }
}

impl WordGroup for Addition {
    ghost use Rattle.vtl_grammar.specs.Words.{addition_at};

    ghost spelled = { addition_at };

    fn spelled_by(kind: &TokenKind) -> Option<Addition> {
        match kind {
            TokenKind::Sign(Sign::Plus) => Some(Addition::Plus),
            TokenKind::Sign(Sign::Minus) => Some(Addition::Minus),
            _ => None,
        }
    }
}

impl WordGroup for AssignKind {
    ghost use Rattle.vtl_grammar.specs.Words.{assign_kind_at};

    ghost spelled = { assign_kind_at };

    fn spelled_by(kind: &TokenKind) -> Option<AssignKind> {
        match kind {
            TokenKind::Sign(Sign::Assign) => Some(AssignKind::Temporary),
            TokenKind::Sign(Sign::Persist) => Some(AssignKind::Persistent),
            _ => None,
        }
    }
}

impl WordGroup for BinaryOp {
    ghost use Rattle.vtl_grammar.specs.Words.{binary_op_at};

    ghost spelled = { binary_op_at };

    fn spelled_by(kind: &TokenKind) -> Option<BinaryOp> {
        match kind {
            TokenKind::Keyword(Keyword::Or) => Some(BinaryOp::Or),
            TokenKind::Keyword(Keyword::Xor) => Some(BinaryOp::Xor),
            TokenKind::Keyword(Keyword::And) => Some(BinaryOp::And),
            TokenKind::Sign(Sign::Equal) => Some(BinaryOp::Equal),
            TokenKind::Sign(Sign::NotEqual) => Some(BinaryOp::NotEqual),
            TokenKind::Sign(Sign::Less) => Some(BinaryOp::Less),
            TokenKind::Sign(Sign::LessOrEqual) => Some(BinaryOp::LessOrEqual),
            TokenKind::Sign(Sign::Greater) => Some(BinaryOp::Greater),
            TokenKind::Sign(Sign::GreaterOrEqual) => Some(BinaryOp::GreaterOrEqual),
            TokenKind::Sign(Sign::Plus) => Some(BinaryOp::Add),
            TokenKind::Sign(Sign::Minus) => Some(BinaryOp::Subtract),
            TokenKind::Sign(Sign::Concat) => Some(BinaryOp::Concat),
            TokenKind::Sign(Sign::Star) => Some(BinaryOp::Multiply),
            TokenKind::Sign(Sign::Slash) => Some(BinaryOp::Divide),
            _ => None,
        }
    }
}

impl WordGroup for UnaryOp {
    ghost use Rattle.vtl_grammar.specs.Words.{unary_op_at};

    ghost spelled = { unary_op_at };

    fn spelled_by(kind: &TokenKind) -> Option<UnaryOp> {
        match kind {
            TokenKind::Sign(Sign::Plus) => Some(UnaryOp::Plus),
            TokenKind::Sign(Sign::Minus) => Some(UnaryOp::Minus),
            TokenKind::Keyword(Keyword::Not) => Some(UnaryOp::Not),
            _ => None,
        }
    }
}

impl WordGroup for CallForm {
    ghost use Rattle.vtl_grammar.specs.Words.{form_at};

    ghost spelled = { form_at };

    fn spelled_by(kind: &TokenKind) -> Option<CallForm> {
        let TokenKind::Keyword(word) = kind else {
            return None;
        };
        Some(match word {
            Keyword::Abs => CallForm::Function(FunctionName::Abs),
            Keyword::Floor => CallForm::Function(FunctionName::Floor),
            Keyword::Ceil => CallForm::Function(FunctionName::Ceil),
            Keyword::Round => CallForm::Function(FunctionName::Round),
            Keyword::Trunc => CallForm::Function(FunctionName::Trunc),
            Keyword::Mod => CallForm::Function(FunctionName::Mod),
            Keyword::Trim => CallForm::Function(FunctionName::Trim),
            Keyword::Ltrim => CallForm::Function(FunctionName::Ltrim),
            Keyword::Rtrim => CallForm::Function(FunctionName::Rtrim),
            Keyword::Substr => CallForm::Function(FunctionName::Substr),
            Keyword::Replace => CallForm::Function(FunctionName::Replace),
            Keyword::Instr => CallForm::Function(FunctionName::Instr),
            Keyword::Length => CallForm::Function(FunctionName::Length),
            Keyword::Isnull => CallForm::Function(FunctionName::Isnull),
            Keyword::Nvl => CallForm::Function(FunctionName::Nvl),
            Keyword::Between => CallForm::Function(FunctionName::Between),
            Keyword::Sum => CallForm::Aggregate(AggregateName::Sum),
            Keyword::Avg => CallForm::Aggregate(AggregateName::Avg),
            Keyword::Count => CallForm::Aggregate(AggregateName::Count),
            Keyword::Min => CallForm::Aggregate(AggregateName::Min),
            Keyword::Max => CallForm::Aggregate(AggregateName::Max),
            Keyword::Median => CallForm::Aggregate(AggregateName::Median),
            Keyword::FirstValue => CallForm::ValueWindow(ValueWindowName::FirstValue),
            Keyword::LastValue => CallForm::ValueWindow(ValueWindowName::LastValue),
            Keyword::RatioToReport => CallForm::ValueWindow(ValueWindowName::RatioToReport),
            Keyword::Lag => CallForm::Shift(ShiftName::Lag),
            Keyword::Lead => CallForm::Shift(ShiftName::Lead),
            Keyword::Rank => CallForm::Rank,
            Keyword::Union => CallForm::SetOp(SetOpName::Union),
            Keyword::Intersect => CallForm::SetOp(SetOpName::Intersect),
            Keyword::Setdiff => CallForm::Difference(DifferenceName::Setdiff),
            Keyword::Symdiff => CallForm::Difference(DifferenceName::Symdiff),
            Keyword::ExistsIn => CallForm::ExistsIn,
            Keyword::Timeshift => CallForm::Time(TimeName::Timeshift),
            Keyword::FillTimeSeries => CallForm::Time(TimeName::FillTimeSeries),
            Keyword::FlowToStock => CallForm::Time(TimeName::FlowToStock),
            Keyword::StockToFlow => CallForm::Time(TimeName::StockToFlow),
            Keyword::Check => CallForm::Check,
            Keyword::CheckDatapoint => CallForm::CheckDatapoint,
            Keyword::CheckHierarchy => CallForm::CheckHierarchy,
            Keyword::Hierarchy => CallForm::Hierarchy,
            Keyword::InnerJoin => CallForm::Join(JoinKind::Inner),
            Keyword::LeftJoin => CallForm::Join(JoinKind::Left),
            Keyword::FullJoin => CallForm::Join(JoinKind::Full),
            Keyword::CrossJoin => CallForm::Join(JoinKind::Cross),
            Keyword::Cast => CallForm::Cast,
            _ => return None,
        })
    }
}

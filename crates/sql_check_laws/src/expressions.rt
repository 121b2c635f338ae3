// Laws of expressions.
ghost use Rattle.std.specs.List.{AllByRecursion};
ghost use Rattle.std.specs.Prelude.{◌≡◌, ◌∷◌, [], false, List, Option};
ghost use Rattle.vtl_cell.specs.ScalarKinds.{kinds_of};
ghost use Rattle.vtl_cell.specs.declared.kind.Kind.{Kind};
ghost use Rattle.vtl_cell.specs.declared.kind.Kind.TheVariants as k;
ghost use Rattle.vtl_cell.specs.declared.operator.ScalarOp.{ScalarOp};
ghost use Rattle.vtl_cell.specs.OperatorKinds.{counted_kinds, takes_literals};
ghost use Rattle.sql_tree.specs.Trees.{Exp};
ghost use Rattle.sql_check_parts.specs.Expressions.{Site, breaks};
ghost use Rattle.sql_check_parts.specs.Kinds.{operator_kind};
ghost use Rattle.sql_check_parts.specs.Scopes.{Grouping};
ghost use Rattle.sql_check_laws.specs.Both.{Iff};
ghost use Rattle.sql_check_laws.specs.Fits.{Fits};
ghost use Rattle.sql_check_laws.specs.Operators.{is_short_replace};

/// An expression breaks no rule, at rows or in a group, exactly where it fits.
pub fn expressions_fit()
    ensures { (at : Site) (g : Option Grouping) (e : Exp) → Iff (breaks at g e ≡ []) (Fits at g e) }
{}

/// But for REPLACE of two operands, an operator has the kind of the table of both languages, where operands that have
/// to be integer literals are integers.
#[tactic(auto, using(crate::proofs::OperatorKinds::kind_as_counted))]
pub fn operators_have_one_kind()
    ensures { (o : ScalarOp) (first : Kind) (rest : List Kind) → is_short_replace o (first ∷ rest) ≡ false → counted_kinds o rest ≡ rest → operator_kind o (first ∷ rest) ≡ kinds_of o (first ∷ rest) }
{}

/// Operands count with the kinds that they have where the operator asks for no literals, and where they are integers.
#[tactic(auto, using(crate::proofs::OperatorKinds::counted_as_given, crate::proofs::OperatorKinds::integers_as_given))]
pub fn operands_are_counted_as_given()
    ensures values { (o : ScalarOp) (kinds : List Kind) → takes_literals o ≡ false → counted_kinds o kinds ≡ kinds }
    ensures integers { (o : ScalarOp) (kinds : List Kind) → AllByRecursion (λ kind. kind ≡ k.Int) kinds → counted_kinds o kinds ≡ kinds }
{}

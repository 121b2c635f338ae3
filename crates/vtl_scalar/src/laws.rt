// Laws of the table of scalar operators.
ghost use Rattle.std.specs.Prelude.{◌≡◌, ◌≤◌, ◌∷◌, ℤ, List, map, false, IfOk, Ok, Some, true, IsOk};
ghost use Rattle.std.specs.List.{AllByRecursion, list_any};
ghost use Rattle.vtl_cell.specs.Kinds.{is_null, kind_of};
ghost use Rattle.vtl_lists.specs.Perm.{Perm};
ghost use Rattle.vtl_cell.specs.Profile.{IsOfProfile};
ghost use Rattle.vtl_cell.specs.ScalarArithmetic.{as_number, units};
ghost use Rattle.vtl_cell.specs.ScalarComparison.{membership_of};
ghost use Rattle.vtl_cell.specs.Scalars.{scalar_of};
ghost use Rattle.vtl_cell.specs.declared.cell.Cell.{Cell};
ghost use Rattle.vtl_cell.specs.declared.operator.ScalarOp.{ScalarOp};
ghost use Rattle.vtl_decimal.specs.Settings.{Settings};
ghost use Rattle.vtl_cell.specs.ScalarKinds.{meet, kinds_of};
ghost use Rattle.vtl_cell.specs.declared.kind.Kind.{Kind};
ghost use Rattle.vtl_scalar.specs.KindLaws.{HasKind};
ghost use Rattle.vtl_scalar.specs.LawOperators.{is_strict, may_fault};

/// An integer of the profile stands for a number without a fault.
#[tactic(auto, using(crate::proofs::FaultLemmas::integer_is_a_number))]
pub fn integers_are_numbers()
    ensures { (p : Settings) (n : ℤ) → p.scale ≤ 9 → IsOfProfile p (Cell.Int n) → as_number p n ≡ Ok (units p n) }
{}

/// For operands of the profile only `+`, `-`, `*`, `/`, `floor`, `ceil`, `round`, `instr`, `length` and the shift of a
/// period may have a fault.
#[tactic(auto, using(crate::proofs::FaultLemmas::scalar_is_ok))]
pub fn other_operators_have_no_fault()
    ensures { (p : Settings) (op : ScalarOp) (args : List Cell) → p.scale ≤ 9 → may_fault op ≡ false → AllByRecursion (IsOfProfile p) args → IsOk (scalar_of p op args) }
{}

/// A value is of the kind that the operator gives for the kinds of its operands, where each operand is of its kind:
/// null, a value of the kind, or an integer where the kind is number.
#[tactic(auto, using(crate::proofs::ValueKindLemmas::value_is_of_kind))]
pub fn values_are_of_their_kind()
    ensures { (p : Settings) (op : ScalarOp) (kinds : List Kind) (args : List Cell) (kind : Kind) → kinds_of op kinds ≡ Some kind → meet kinds (map kind_of args) ≡ true → HasKind kind (scalar_of p op args) }
{}

/// Where an operand is null the value is null, except for `and`, `or`, `isnull`, `nvl` and `if`: so `null / 0` has no
/// fault.
#[tactic(auto, using(crate::proofs::NullLemmas::null_gives_null))]
pub fn null_gives_null()
    ensures { (p : Settings) (op : ScalarOp) (args : List Cell) → is_strict op ≡ true → list_any is_null args ≡ true → scalar_of p op args ≡ Ok Cell.Null }
{}

/// A value is of the profile where all operands are: an integer that an operator gives can be written into a field, and
/// one that cannot is the fault of a number out of range.
#[tactic(auto, using(crate::proofs::ProfileLemmas::value_is_of_profile))]
pub fn values_are_of_the_profile()
    ensures { (p : Settings) (op : ScalarOp) (args : List Cell) → AllByRecursion (IsOfProfile p) args → IfOk (scalar_of p op args) (IsOfProfile p) }
{}

/// Whether a value is in a set does not depend on the order of the set's members.
#[tactic(auto, using(crate::proofs::MemberLemmas::membership_of_perm))]
pub fn members_have_no_order()
    ensures { (p : Settings) (a : Cell) (xs ys : List Cell) → Perm xs ys → membership_of p (a ∷ xs) ≡ membership_of p (a ∷ ys) }
{}

// The values of targets, and functions, once their operands are typed.
ghost use Rattle.std.specs.Prelude.{◌≡◌, ◌++◌, ◌∷◌, [], IfOk, map};
ghost use Rattle.std.specs.Option.{option_map};
ghost use Rattle.vtl_tree.specs.NodeView.{value_tree};
ghost use Rattle.check_faults.specs.Answers.{Answers};
ghost use Rattle.vtl_syntax.specs.Trees.{exps_of};
ghost use Rattle.vtl_syntax.specs.View.{expr_tree};
ghost use Rattle.check_operators.specs.Operators.{operator_form};
ghost use Rattle.check_operators.specs.Typed.{typed_tree, typed_trees};
ghost use Rattle.check_values.specs.Literals.{literals_fit};
ghost use Rattle.check_values.specs.Operators.{exps_length, of_function, takes};
ghost use Rattle.check_expressions.specs.Typing.{scalar_value};

use check_faults::TypeErr;
use check_operators::{Place, Typed, operator};
use check_values::{function_operator, literals_fit, takes};
use std::alloc::{AllocError, Global};
use vtl_decimal::Profile;
use vtl_syntax::{Expr, FunctionName};
use vtl_tree::CalcValue;

/// One more operand after others.
pub fn with_operand(operands: Vec<Typed>, operand: Typed) -> Result<Vec<Typed>, AllocError>
    ensures { IfOk result (λ v. typed_trees v ≡ typed_trees operands ++ typed_tree operand ∷ []) }
{
    let mut operands = operands;
    operands.push(operand)?;
    Ok(operands)
}

/// A value as that of a target of `calc`.
pub fn scalar_value(value: Typed) -> Result<CalcValue, TypeErr>
    ensures { Answers value_tree result (scalar_value (typed_tree value)) }
{
    Ok(CalcValue::Scalar(value.value()?))
}

/// A function on its operands.
#[tactic(auto, using(crate::proofs::Lengths::as_many))]
pub fn function(
    alloc: Global,
    profile: &Profile,
    place: &Place,
    function: FunctionName,
    written: &[Expr],
    operands: Vec<Typed>,
) -> Result<Typed, TypeErr>
    ensures { Answers typed_tree result (operator_form place.now (of_function function) (takes function (exps_length (exps_of (map expr_tree written.now)))) (literals_fit profile.now function (exps_of (map expr_tree written.now))) (typed_trees operands)) }
{
    let number = takes(function, written.len());
    let literals = literals_fit(profile, function, written);
    operator(
        alloc,
        place,
        function_operator(function),
        number,
        literals,
        operands,
    )
}

/// An expression that may be absent.
pub fn opened(e: &Option<Box<Expr>>) -> Option<&Expr>
    ensures { option_map (λ e. expr_tree e.now) result ≡ option_map (λ b. expr_tree b.value) e.now }
{
    match e {
        Some(e) => Some(e),
        None => None,
    }
}

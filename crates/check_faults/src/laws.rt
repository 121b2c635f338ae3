// Laws of what items give in turn.
ghost use Rattle.std.specs.Prelude.{◌≡◌, List, Result, Ok, Err, []};
ghost use Rattle.check_faults.specs.InTurn.{FailedAt, GaveEach, in_turn};

/// Items in turn give a list exactly where each item gives what stands at its place in that list, after what stands
/// before that place; and they fail exactly where one item fails after what all items before it gave, with its error.
pub fn in_turn_is_place_by_place<A, B, E>()
    ensures gives { (step : List B → A → Result B E) (xs : List A) (ys : List B) → in_turn step [] xs ≡ Ok ys → GaveEach step xs ys }
    ensures given { (step : List B → A → Result B E) (xs : List A) (ys : List B) → GaveEach step xs ys → in_turn step [] xs ≡ Ok ys }
    ensures fails { (step : List B → A → Result B E) (xs : List A) (e : E) → in_turn step [] xs ≡ Err e → FailedAt step xs e }
    ensures failed { (step : List B → A → Result B E) (xs : List A) (e : E) → FailedAt step xs e → in_turn step [] xs ≡ Err e }
{}

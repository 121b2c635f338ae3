// The law of the structures of results.
//
// What a clause chose or renamed stands beside what its operator needs (`IsChosen` beside `IsLeft`, `IsRenamedBy`
// beside `IsRenamed`, `IsJoinedFrom` beside `IsJoined`): the calls take the structure of the result and no names, and
// ask that there are names that give it.
ghost use Rattle.std.specs.Prelude.{◌≡◌, List};
ghost use Rattle.vtl_decimal.specs.Settings.{Settings};
ghost use Rattle.vtl_cell.specs.declared.operator.ScalarOp.{ScalarOp};
ghost use Rattle.vtl_tree.specs.Trees.{ItemTree, MeasureTree};
ghost use Rattle.vtl_tree.specs.declared.clauses.SubItem.{SubItem};
ghost use Rattle.vtl_tree.specs.declared.structure.Structure.{Structure};
ghost use Rattle.vtl_meaning.specs.Made.{IsCalculated, IsChoice, IsMeasured, IsPaired, IsSub};

/// The structure of a result is one: two that fit the same operator over the same operands are equal.
pub fn structures_are_determined()
    ensures measures { (p : Settings) (m : MeasureTree) (a s t : Structure) → IsMeasured p m a s → IsMeasured p m a t → s ≡ t }
    ensures pair { (p : Settings) (o : ScalarOp) (a b s t : Structure) → IsPaired p o a b s → IsPaired p o a b t → s ≡ t }
    ensures choice { (c a b s t : Structure) → IsChoice c a b s → IsChoice c a b t → s ≡ t }
    ensures calc { (p : Settings) (items : List ItemTree) (a s t : Structure) → IsCalculated p items a s → IsCalculated p items a t → s ≡ t }
    ensures sub { (items : List SubItem) (a s t : Structure) → IsSub items a s → IsSub items a t → s ≡ t }
{}

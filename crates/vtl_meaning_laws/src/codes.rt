// Which codes the identifiers of results have.
ghost use Rattle.std.specs.Prelude.{◌≡◌, ℕ, [], ◌∷◌, ◌++◌, List, None, Some, false, map, true};
ghost use Rattle.std.specs.List.{AllByRecursion, list_all};
ghost use Rattle.vtl_cell.specs.declared.operator.ScalarOp.{ScalarOp};
ghost use Rattle.vtl_decimal.specs.Settings.{Settings};
ghost use Rattle.vtl_syntax.specs.declared.word_groups.JoinKind.{JoinKind};
ghost use Rattle.vtl_syntax.specs.declared.word_groups.JoinKind.TheVariants as join;
ghost use Rattle.vtl_tree.specs.Choices.{chosen};
ghost use Rattle.vtl_tree.specs.ClauseShapes.{names_column, renamed};
ghost use Rattle.vtl_tree.specs.Columns.{identifiers_of, measures_of};
ghost use Rattle.vtl_tree.specs.CompExp.{CompExp};
ghost use Rattle.vtl_tree.specs.Joins.{all_own, held_names, is_cross, reference, structures_of};
ghost use Rattle.vtl_tree.specs.Names.{component_of};
ghost use Rattle.vtl_tree.specs.Operands.{agreed, agreed_identifiers, is_coded_alike};
ghost use Rattle.vtl_tree.specs.Pairs.{pair_identifiers};
ghost use Rattle.vtl_tree.specs.Structure.{columns_of};
ghost use Rattle.vtl_tree.specs.Trees.{AggTree, AnalyticTree, ItemTree, MeasureTree};
ghost use Rattle.vtl_tree.specs.declared.choices.Choice.{Choice};
ghost use Rattle.vtl_tree.specs.declared.choices.Choice.TheVariants as choice;
ghost use Rattle.vtl_tree.specs.declared.clauses.SubItem.{SubItem};
ghost use Rattle.vtl_tree.specs.declared.joins.Operand.{Operand};
ghost use Rattle.vtl_tree.specs.declared.names.Wanted.{Wanted};
ghost use Rattle.vtl_tree.specs.declared.renaming.Renaming.{Renaming};
ghost use Rattle.vtl_tree.specs.declared.structure.Component.{Component};
ghost use Rattle.vtl_tree.specs.declared.structure.Structure.{Structure};
ghost use Rattle.vtl_meaning.specs.AggregateShapes.{IsAggregated};
ghost use Rattle.vtl_meaning.specs.AnalyticShapes.{IsAnalyzed};
ghost use Rattle.vtl_meaning.specs.Made.{IsCalculated, IsChoice, IsCombined, IsExistence, IsFiltered, IsLeft, IsMeasured, IsPaired, IsPivoted, IsSub, IsUnpivoted};
ghost use Rattle.vtl_meaning.specs.Shapes.{IsChosen, IsJoinedFrom, IsRenamedBy};
ghost use Rattle.vtl_meaning.specs.Turned.{other_identifiers};

/// An operator on one data set leaves identifiers as they are, with their codes: all of them, or those that are not
/// grouped away. `unpivot` has one more behind them, whose codes are the names of the measures.
pub fn operators_on_one_data_set_keep_codes()
    ensures measures { (p : Settings) (m : MeasureTree) (a s : Structure) → IsMeasured p m a s → identifiers_of s ≡ identifiers_of a }
    ensures aggregate { (spec : AggTree) (a s : Structure) → IsAggregated spec a s → AllByRecursion (λ x. component_of x.name (columns_of a) ≡ Some x) (identifiers_of s) }
    ensures analytic { (p : Settings) (spec : AnalyticTree) (a s : Structure) → IsAnalyzed p spec a s → identifiers_of s ≡ identifiers_of a }
    ensures pivot { (id m : List ℕ) (a s : Structure) → IsPivoted id m a s → identifiers_of s ≡ other_identifiers id a }
    ensures unpivot { (id m : List ℕ) (a s : Structure) → IsUnpivoted id m a s → identifiers_of s ≡ identifiers_of a ++ names_column id (measures_of a) ∷ [] }
{}

/// An operator on several data sets keeps the codes of an identifier exactly where each operand that has it lists the
/// same: its identifiers are those of one operand, agreed with the others.
///
/// - `kept`, `lost`: what is agreed.
pub fn codes_are_kept_where_all_list_the_same()
    ensures pair { (p : Settings) (o : ScalarOp) (a b s : Structure) → IsPaired p o a b s → identifiers_of s ≡ pair_identifiers a b }
    ensures choice { (condition a b s : Structure) → IsChoice condition a b s → identifiers_of s ≡ agreed_identifiers (a ∷ b ∷ []) condition.components }
    ensures set { (a : Structure) (others : List Structure) (s : Structure) → IsCombined a others s → identifiers_of s ≡ agreed_identifiers others a.components }
    ensures existence { (a b s : Structure) → IsExistence a b s → identifiers_of s ≡ agreed_identifiers (b ∷ []) a.components }
    ensures kept { (others : List Structure) (x : Component) → AllByRecursion (λ b. is_coded_alike x b.components ≡ true) others → agreed others x ≡ x }
    ensures lost { (others : List Structure) (x : Component) → list_all (λ b. is_coded_alike x b.components) others ≡ false → (agreed others x).codes ≡ None }
{}

/// A clause leaves the identifiers of its operand with their codes: all of them as they are, all under the names that
/// `rename` gives them, or those that `sub` does not fix. What `calc` makes is no identifier and has no codes.
///
/// - `left`: of `keep`, `drop` and `#`, which choose among the other components alone.
pub fn clauses_keep_codes()
    ensures filter { (p : Settings) (e : CompExp) (a s : Structure) → IsFiltered p e a s → identifiers_of s ≡ identifiers_of a }
    ensures calc { (p : Settings) (items : List ItemTree) (a s : Structure) → IsCalculated p items a s → identifiers_of s ≡ identifiers_of a }
    ensures left { (w : Wanted) (c : Choice) (names : List (List ℕ)) (a s : Structure) → IsLeft a s → IsChosen w c names a s → identifiers_of s ≡ identifiers_of a }
    ensures rename { (pairs : List Renaming) (a s : Structure) → IsRenamedBy pairs a s → identifiers_of s ≡ map (renamed pairs) (identifiers_of a) }
    ensures sub { (items : List SubItem) (a s : Structure) → IsSub items a s → identifiers_of s ≡ chosen choice.Drop (map (λ i. i.id) items) (identifiers_of a) }
{}

/// A join keeps the codes of an identifier exactly where each operand that has it lists the same: its identifiers are
/// those of the reference, agreed with all operands. The operands of a cross join share no identifier, and each keeps
/// its own with their codes.
pub fn joins_keep_codes_where_all_list_the_same()
    ensures shared { (kind : JoinKind) (os : List Operand) (r : Operand) (s : Structure) → is_cross kind ≡ false → reference kind os ≡ Some r → IsJoinedFrom kind os s → identifiers_of s ≡ agreed_identifiers (structures_of os) r.structure.components }
    ensures cross { (os : List Operand) (s : Structure) → IsJoinedFrom join.Cross os s → identifiers_of s ≡ all_own (held_names join.Cross os) true os }
{}

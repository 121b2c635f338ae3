// Laws of typing.
ghost use Rattle.std.specs.Prelude.{◌≡◌, ◌≤◌, ℕ, max, None, List, Ok, IfOk, true};
ghost use Rattle.std.specs.List.{AllByRecursion};
ghost use Rattle.std.specs.Map.{keys_of};
ghost use Rattle.vtl_decimal.specs.Settings.{Settings};
ghost use Rattle.vtl_cell.specs.Kinds.{is_of};
ghost use Rattle.vtl_cell.specs.Row.{Row};
ghost use Rattle.vtl_syntax.specs.Depth.{deepest, depth_limit, exp_depth, statement_depth};
ghost use Rattle.vtl_syntax.specs.Trees.{Exp, ScriptTree};
ghost use Rattle.vtl_syntax.specs.Written.{AreWritten};
ghost use Rattle.vtl_tree.specs.CompExp.{CompExp};
ghost use Rattle.vtl_tree.specs.DataSet.{is_point};
ghost use Rattle.vtl_tree.specs.Structures.{AreStructures, Named, has_name};
ghost use Rattle.vtl_tree.specs.Value.{value as value_of};
ghost use Rattle.vtl_tree.specs.Trees.{NodeTree, structure_of};
ghost use Rattle.vtl_tree.specs.Kinds.{exp_kind};
ghost use Rattle.check_operators.specs.Places.{Env};
ghost use Rattle.check_operators.specs.Typed.{TypedTree, dataset, value};
ghost use Rattle.check_operators.specs.declared.places.Inside.{Inside};
ghost use Rattle.check_operators.specs.declared.places.Place.{Place};
ghost use Rattle.check_operators.specs.declared.places.Place.TheVariants as place;
ghost use Rattle.check_expressions.specs.Rulesets.{Definitions, rulings_of};
ghost use Rattle.check_expressions.specs.Rulings.{Rulings, Sight, names_in, plain_sight, sight_of};
ghost use Rattle.check_expressions.specs.Typing.{typed};
ghost use Rattle.vtl_check.specs.Checked.{IsTyped, TypedScript, env_over, nodes_of, tree_of};
ghost use Rattle.vtl_check.specs.Names.{names_in as names_in_node};
ghost use Rattle.vtl_check.specs.Script.{script_typed};
ghost use Rattle.vtl_check.specs.Transformations.{transformations};
ghost use Rattle.vtl_scripts.specs.Made.{IsMade};
ghost use Rattle.vtl_meaning.specs.Shapes.{IsShaped};
ghost use Rattle.vtl_tree.specs.Nodes.{nodes_in};
ghost use Rattle.check_laws.specs.Called.{AreCalls, HasFewRules, HoldsOfCalls};
ghost use Rattle.check_laws.specs.Depths.{IsHeldUpTo, node_depth};
ghost use Rattle.vtl_tree.specs.Depths.{comp_depth};
ghost use Rattle.check_laws.specs.Reads.{is_inside, names_read, script_names};
ghost use Rattle.check_laws.specs.Scripts.{AreCalledAlike, AreKnownAlike, AreMadeFrom, AreReadFrom};
ghost use Rattle.check_laws.specs.SoundRulings.{AreAccepted, AreSoundRulings, env_of};
ghost use Rattle.check_laws.specs.WellTyped.{AreShaped, IsWellTyped};

/// What typing gives for an expression is typed over the columns of its place, with literals where operators ask for
/// them, or is made over the data sets that are known: each node has the structure that its form gives of its operands.
/// Over groups a value is made of grouping identifiers, of aggregates that take the values of a component, and of how
/// many points there are. It is so where what calls of rulesets give is: without rulesets, and where each definition
/// is what a ruleset has to be.
pub fn typing_is_sound()
    ensures any { (sight : Sight) (at : Place) (e : Exp) (x : TypedTree) → AreShaped sight.known → AreSoundRulings sight.settings sight.called → typed sight at e ≡ Ok x → IsWellTyped (names_in sight) at x }
    ensures plain { (env : Env) (at : Place) (e : Exp) (x : TypedTree) → AreShaped env.known → typed (plain_sight env) at e ≡ Ok x → IsWellTyped env at x }
    ensures rulesets { (env : Env) (definitions : Definitions) (at : Place) (e : Exp) (x : TypedTree) → AreShaped env.known → AreAccepted env.settings definitions → typed (sight_of env (rulings_of definitions)) at e ≡ Ok x → IsWellTyped env at x }
{}

/// A typed value at a point of the columns of its place is null or of exactly the kind of the expression.
pub fn typed_values_are_of_their_kind()
    ensures { (sight : Sight) (i : Inside) (e : Exp) (x : CompExp) (r : Row) → AreShaped sight.known → AreSoundRulings sight.settings sight.called → i.grouping ≡ None → typed sight (place.Inside i) e ≡ Ok (value x) → is_point i.components r ≡ true → IfOk (value_of sight.settings x r) (λ v. is_of (exp_kind x) v ≡ true) }
{}

/// The nodes of a typed script: one for each transformation, whose result has a new name, and each made over what is
/// known where its statement stands. All nodes within them have structures of as many components as they may have, with
/// distinct names, each of a kind, and each name that is read is that of a declared data set or of an earlier result.
pub fn typed_scripts_are_made()
    ensures made { (t : TypedScript) → AreStructures t.declared → IsTyped t → AreMadeFrom t.settings t.declared (transformations (tree_of t)) (nodes_of t) }
    ensures structures { (t : TypedScript) → AreStructures t.declared → IsTyped t → AllByRecursion (λ n. AllByRecursion (λ m. IsShaped (structure_of m)) (nodes_in n)) (nodes_of t) }
    ensures names { (t : TypedScript) → AreStructures t.declared → IsTyped t → AreReadFrom (keys_of t.declared) (transformations (tree_of t)) (nodes_of t) }
{}

/// A node that is made over some data sets reads names that are known there, and is made over all others in which these
/// names stand for the same structures.
pub fn nodes_are_made_over_what_they_read()
    ensures known { (p : Settings) (known : Named) (n : NodeTree) → IsMade p known n → AllByRecursion (λ name. has_name name known ≡ true) (names_in_node n) }
    ensures over { (p : Settings) (known other : Named) (n : NodeTree) → AreKnownAlike known other (names_in_node n) → IsMade p known n → IsMade p other n }
{}

/// Typing depends only on the structures of the names that are read: of an expression, as far as what calls give
/// does, and of a script, in which the names of results and of rulesets have to be new and conditions read too.
pub fn typing_depends_on_what_is_read()
    ensures expression { (p : Settings) (known other : Named) (called : Rulings) → AreCalledAlike p known other called → (at : Place) (e : Exp) → AreKnownAlike known other (names_read (is_inside at) e) → typed (sight_of (env_of p known) called) at e ≡ typed (sight_of (env_of p other) called) at e }
    ensures script { (p : Settings) (known other : Named) (ss : ScriptTree) → AreKnownAlike known other (script_names ss) → script_typed (env_over p known) ss ≡ script_typed (env_over p other) ss }
{}

/// What is typed is no deeper than what was written. A value has at most the depth of the expression that it was read
/// from, and so has each component expression of a node and of its operands: those that it holds, and the calls that an
/// operator on data sets makes of measures; the conditions of a call's rules are those of a definition, and as deep.
/// No expression in the nodes of a typed script is deeper than the script's deepest statement, so than 128 where the
/// script is written.
pub fn typed_trees_are_no_deeper()
    ensures values { (sight : Sight) (at : Place) (e : Exp) (x : CompExp) → AreCalls (λ form. Unit {0}) sight.called → typed sight at e ≡ Ok (value x) → comp_depth x ≤ exp_depth e }
    ensures nodes { (sight : Sight) (at : Place) (e : Exp) (n : NodeTree) (b : ℕ) → AreCalls (IsHeldUpTo b) sight.called → typed sight at e ≡ Ok (dataset n) → node_depth n ≤ max (exp_depth e) b }
    ensures scripts { (t : TypedScript) → IsTyped t → AllByRecursion (λ n. node_depth n ≤ deepest statement_depth (tree_of t)) (nodes_of t) }
    ensures written { (t : TypedScript) → IsTyped t → AreWritten (tree_of t) → AllByRecursion (λ n. node_depth n ≤ depth_limit) (nodes_of t) }
{}

/// Each call of a ruleset in the nodes of a typed script that is written has a rule at least, and no more rules than a
/// script may have.
pub fn calls_have_rules()
    ensures { (t : TypedScript) → IsTyped t → AreWritten (tree_of t) → AllByRecursion (HoldsOfCalls HasFewRules) (nodes_of t) }
{}

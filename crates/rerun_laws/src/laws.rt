// Laws of scripts that are run part by part.
ghost use Rattle.std.specs.Prelude.{◌≡◌, ◌∷◌, [], ℕ, false, List, Some, slice_get, take};
ghost use Rattle.std.specs.List.{AllByRecursion, list_any};
ghost use Rattle.vtl_decimal.specs.Settings.{Settings};
ghost use Rattle.vtl_rows.specs.Named.{NamedTables};
ghost use Rattle.vtl_tree.specs.Environment.{Environment, data_of, known_in};
ghost use Rattle.vtl_tree.specs.Structure.{same_name};
ghost use Rattle.vtl_tree.specs.Structures.{AreStructures};
ghost use Rattle.vtl_tree.specs.Trees.{NodeTree};
ghost use Rattle.vtl_meaning.specs.Profiles.{AllAreOfProfile};
ghost use Rattle.vtl_backend.specs.Inputs.{AreInRange, AreInputs, environment_of};
ghost use Rattle.vtl_backend.specs.Runs.{script_meaning};
ghost use Rattle.vtl_backend.specs.Statements.{statements_of};
ghost use Rattle.vtl_check.specs.Checked.{IsTyped, TypedScript, tree_of};
ghost use Rattle.vtl_check.specs.Names.{names_in};
ghost use Rattle.vtl_check.specs.Transformations.{Transformation, transformations};
ghost use Rattle.check_laws.specs.Scripts.{AreKnownAlike};
ghost use Rattle.vtl_scripts.specs.Made.{AreMadeStatements};
ghost use Rattle.vtl_scripts.specs.Meaning.{AreDataSets, Statement, data_set_of, meaning};
ghost use Rattle.vtl_scripts.specs.Orders.{SameMeaning};
ghost use Rattle.rerun_laws.specs.Depends.{dependents_of, is_one};
ghost use Rattle.rerun_laws.specs.Given.{AreGiven};
ghost use Rattle.rerun_laws.specs.Parts.{IsPart};
ghost use Rattle.rerun_laws.specs.Values.{AreDataSetsOf, AreSameBut, alone, behind, known_behind, one_by_one, outputs_of_values, values};

/// What a script means is the run of its transformations one after the other, each as a script of its own over the inputs
/// and the results of those before it, up to the first fault.
pub fn parts_in_turn_mean_the_script()
    ensures { (p : Settings) (ss : List Statement) (env : Environment) → one_by_one p ss env ≡ meaning p ss env }
{}

/// What a transformation gives depends only on the data sets that it reads.
pub fn what_is_read_suffices()
    ensures { (p : Settings) (env other : Environment) (n : NodeTree) → AllByRecursion (λ name. data_of name env ≡ data_of name other) (names_in n) → data_set_of p env n ≡ data_set_of p other n }
{}

/// What a script means is told by the data sets of its transformations: it has the fault of the first that has one.
pub fn values_make_the_meaning()
    ensures { (p : Settings) (ss : List Statement) (env : Environment) → outputs_of_values ss (values p ss env) ≡ meaning p ss env }
{}

/// Where an environment differs from another one in data sets of some names alone, only the transformations that depend
/// on these, directly or through results, may give other data sets: where one data set is replaced, those that are
/// its dependents by number.
pub fn only_dependents_change()
    ensures statements { (p : Settings) (ss : List Statement) (names : List (List ℕ)) (env other : Environment) → ((name : List ℕ) → list_any (same_name name) names ≡ false → data_of name env ≡ data_of name other) → AreSameBut names ss (values p ss env) (values p ss other) }
    ensures script { (t : TypedScript) (name : List ℕ) (env other : Environment) → ((q : List ℕ) → same_name q name ≡ false → data_of q env ≡ data_of q other) → (i : ℕ) (tr : Transformation) → slice_get (transformations (tree_of t)) i ≡ Some tr → is_one tr.number (dependents_of name t) ≡ false → slice_get (values t.settings (statements_of t) env) i ≡ slice_get (values t.settings (statements_of t) other) i }
{}

/// A script of one transformation, over tables of the data sets that it reads, means what the transformation alone means
/// over these data sets, up to the order of points.
pub fn parts_mean_their_transformations()
    ensures { (part : TypedScript) (s : Statement) (env : Environment) (tables : NamedTables) → AreStructures part.declared → IsTyped part → statements_of part ≡ s ∷ [] → AreDataSets env → AreKnownAlike part.declared (known_in env) (names_in s.node) → AreGiven env s.node tables → SameMeaning (meaning part.settings (s ∷ []) env) (script_meaning part tables) }
{}

/// Tables of the data sets that a script of one transformation reads are inputs of it, and hold integers of its profile
/// where the data sets do: a result of one part may be given to another.
pub fn results_may_be_given_on()
    ensures inputs { (part : TypedScript) (s : Statement) (env : Environment) (tables : NamedTables) → AreStructures part.declared → IsTyped part → statements_of part ≡ s ∷ [] → AreKnownAlike part.declared (known_in env) (names_in s.node) → AreGiven env s.node tables → AreInputs part tables }
    ensures ranges { (part : TypedScript) (s : Statement) (env : Environment) (tables : NamedTables) → AreStructures part.declared → IsTyped part → statements_of part ≡ s ∷ [] → AreKnownAlike part.declared (known_in env) (names_in s.node) → AreGiven env s.node tables → AllAreOfProfile part.settings env → AreInRange part tables }
{}

/// What each transformation gives is a data set of the structure of its expression, whose integers are of the profile, or
/// a fault; also behind a fault. So are all that are there behind transformations, and it is known of each which structure
/// it has.
pub fn values_are_data_sets()
    ensures values { (p : Settings) (ss : List Statement) (env : Environment) → AreMadeStatements p (known_in env) ss → AreDataSets env → AllAreOfProfile p env → AreDataSetsOf p ss (values p ss env) }
    ensures sets { (p : Settings) (ss : List Statement) (env : Environment) → AreMadeStatements p (known_in env) ss → AreDataSets env → AllAreOfProfile p env → AreDataSets (behind p ss env) × AllAreOfProfile p (behind p ss env) }
    ensures known { (p : Settings) (ss : List Statement) (env : Environment) → known_in (behind p ss env) ≡ known_behind (known_in env) ss }
{}

/// The part of a transformation is this transformation, written with `<-`, and the data sets that it reads have the
/// structures that they have where the transformation stands in the whole.
pub fn parts_stand_for_their_transformations()
    ensures statement { (t : TypedScript) (part : TypedScript) (i : ℕ) (tr : Transformation) (s : Statement) → slice_get (transformations (tree_of t)) i ≡ Some tr → slice_get (statements_of t) i ≡ Some s → IsPart t tr.number part → statements_of part ≡ alone s ∷ [] }
    ensures known { (t : TypedScript) (part : TypedScript) (tables : NamedTables) (i : ℕ) (tr : Transformation) (s : Statement) → AreStructures t.declared → IsTyped t → slice_get (transformations (tree_of t)) i ≡ Some tr → slice_get (statements_of t) i ≡ Some s → IsPart t tr.number part → AreKnownAlike part.declared (known_in (behind t.settings (take i (statements_of t)) (environment_of t tables))) (names_in s.node) }
    ensures made { (t : TypedScript) (tables : NamedTables) → AreStructures t.declared → IsTyped t → AreMadeStatements t.settings (known_in (environment_of t tables)) (statements_of t) }
{}

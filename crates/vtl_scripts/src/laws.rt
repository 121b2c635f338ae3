// Laws of expressions and scripts.
ghost use Rattle.std.specs.Prelude.{◌≡◌, IfOk, List, Ok};
ghost use Rattle.vtl_decimal.specs.Settings.{Settings};
ghost use Rattle.vtl_cell.specs.Outcomes.{Same};
ghost use Rattle.vtl_cell.specs.Row.{Row};
ghost use Rattle.vtl_tree.specs.DataSet.{AreOfProfile, IsDataSet};
ghost use Rattle.vtl_tree.specs.Environment.{Environment, known_in};
ghost use Rattle.vtl_tree.specs.Structures.{Named};
ghost use Rattle.vtl_tree.specs.declared.structure.Structure.{Structure};
ghost use Rattle.vtl_tree.specs.Trees.{FormTree, NodeTree, structure_of};
ghost use Rattle.vtl_meaning.specs.Orders.{SameData};
ghost use Rattle.vtl_meaning.specs.Profiles.{AllAreOfProfile};
ghost use Rattle.vtl_scripts.specs.Made.{AreMadeStatements, IsMade, IsMadeForm};
ghost use Rattle.vtl_scripts.specs.Meaning.{AreDataSets, Outputs, Statement, meaning, node_value};
ghost use Rattle.vtl_scripts.specs.Orders.{SameMeaning};

/// Over data sets, a typed expression gives a data set of its structure, and so is each output of a
/// script.
pub fn scripts_keep_data_sets()
    ensures expression { (p : Settings) (env : Environment) (n : NodeTree) (out : List Row) → IsMade p (known_in env) n → AreDataSets env → node_value p env n ≡ Ok out → IsDataSet (structure_of n) out }
    ensures outputs { (p : Settings) (ss : List Statement) (env : Environment) (out : Outputs) → AreMadeStatements p (known_in env) ss → AreDataSets env → meaning p ss env ≡ Ok out → AreDataSets out }
{}

/// Over data sets whose integers are of the profile, a typed expression gives points whose integers
/// are of the profile, and so does each output of a script.
pub fn results_are_of_the_profile()
    ensures expression { (p : Settings) (env : Environment) (n : NodeTree) → IsMade p (known_in env) n → AllAreOfProfile p env → IfOk (node_value p env n) (AreOfProfile p) }
    ensures outputs { (p : Settings) (ss : List Statement) (env : Environment) → AreMadeStatements p (known_in env) ss → AllAreOfProfile p env → IfOk (meaning p ss env) (AllAreOfProfile p) }
{}

/// What a script means does not depend on the order of points: over data sets with the same points, an expression has
/// the same points or the same fault, and a script the same outputs up to order or the same fault at the same
/// statement.
pub fn meaning_does_not_see_order()
    ensures expression { (p : Settings) (env other : Environment) (n : NodeTree) → AreDataSets env → SameData env other → IsMade p (known_in env) n → Same (node_value p env n) (node_value p other n) }
    ensures script { (p : Settings) (ss : List Statement) (env other : Environment) → AreDataSets env → SameData env other → AreMadeStatements p (known_in env) ss → SameMeaning (meaning p ss env) (meaning p ss other) }
{}

/// The structure of a result is one: two with which the same form is made are equal.
pub fn results_are_determined()
    ensures { (p : Settings) (known : Named) (s t : Structure) (form : FormTree) → IsMadeForm p known s form → IsMadeForm p known t form → s ≡ t }
{}

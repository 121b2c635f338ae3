// Laws of the definitions that the top call cites.
//
// That each held file has an outcome is said without choosing one (`expected_is_there`): the tokens of a text are a
// relation, and nothing decides them outside the program.
ghost use Rattle.std.specs.Prelude.{◌≡◌, ◌≢◌, ◌≤◌, ◌⊎◌, ℕ, [], Err, List, Ok, Option, Result, Some};
ghost use Rattle.std.specs.Map.{lookup};
ghost use Rattle.vtl_tree.specs.Structure.{IsStructure, key_width, same_name};
ghost use Rattle.vtl_tree.specs.NotNull.{not_null_of as list_of};
ghost use Rattle.vtl_tree.specs.declared.structure.Structure.{Structure};
ghost use Rattle.vtl_csv.specs.InputFile.{dataset_rows};
ghost use Rattle.vtl_csv.specs.StructuresFile.{structures_of_file};
ghost use Rattle.vtl_csv.specs.declared.structures.Declared.{Declared as Whole};
ghost use Rattle.vtl_check.specs.Uses.{reads};
ghost use Rattle.vtl_decimal.specs.Settings.{Settings};
ghost use Rattle.vtl_meaning.specs.Profiles.{AllAreOfProfile};
ghost use Rattle.sql_engine.specs.Structures.{not_null_of, structure_of};
ghost use Rattle.sql_meaning.specs.Scripts.{Inputs, script_value};
ghost use Rattle.vtl_to_sql.specs.Inputs.{AreTaken, sets_read};
ghost use Rattle.vtl_to_sql.specs.Scripts.{input_of};
ghost use Rattle.vtl_decimal.specs.declared.number.Fault.{Fault};
ghost use Rattle.vtl_demo.specs.Said.{said};
ghost use Rattle.vtl_top.specs.Answered.{Adds, Ends};
ghost use Rattle.vtl_top.specs.Complete.{IsCalm};
ghost use Rattle.vtl_top.specs.Forms.{asked_step};
ghost use Rattle.vtl_top.specs.Expected.{IsTextOf, Typed, fault_status, format_step, meant, outputs_of, run_step, text_step};
ghost use Rattle.vtl_top.specs.Meant.{IsAccepted, IsFaulted, IsFormMeant, IsMeant, IsMistyped, IsTextMeant};
ghost use Rattle.vtl_top.specs.Migrated.{IsMigrated, migrate_step};
ghost use Rattle.vtl_top.specs.ReplayMeant.{IsReplayMeant};
ghost use Rattle.vtl_top.specs.Replayed.{replay_step};
ghost use Rattle.vtl_top.specs.SqlMeant.{IsExported, IsSqlFaulted, IsSqlMistyped};
ghost use Rattle.vtl_top.specs.SqlRun.{engine_step, exports_of};
ghost use Rattle.sql_check_parts.specs.Rules.{number_of};
ghost use Rattle.sql_check_parts.specs.Statements.{Fault as Breach};
ghost use Rattle.vtl_top.specs.Said.{Hears};
ghost use Rattle.vtl_top.specs.Steps.{File, Held, Made, Name, Path, Text, status_of};
ghost use Rattle.vtl_top.specs.Words.{Command, Engine, Migration, Replay, Run, RunsScript, Source, demo, engine, format, migrate, sql};
ghost use Rattle.vtl_status.specs.declared.status.Status.{Status};

use vtl_files::{Files, Sink};

/// The outputs that a run gives over the held files are what the script means: its text, over the data sets that the
/// inputs hold, gives results, and each file is named after a result and holds its CSV text, in order. A run in SQL gives
/// what the run does, since both ask for `run_step`.
pub fn output_is_meant()
    ensures only { (r : Run) (held : Held) (files : List File) → (run_step r).gives held (Ok files) → IsMeant r held files }
    ensures always { (r : Run) (held : Held) (files : List File) → IsMeant r held files → (run_step r).gives held (Ok files) }
{}

/// A run, in SQL or not, is `Mistyped` exactly where its script breaks a rule over its structures: by the first statement
/// that does, and by its rule. The data sets are not looked at before. The same holds where the text of the script in SQL
/// is asked for.
pub fn mistyped_is_first_fault()
    ensures only { (r : Run) (held : Held) (statement rule : ℕ) → (run_step r).gives held (Err (Status.Mistyped statement rule)) → IsMistyped r.source held statement rule }
    ensures always { (r : Run) (held : Held) (statement rule : ℕ) → IsMistyped r.source held statement rule → (run_step r).gives held (Err (Status.Mistyped statement rule)) }
    ensures text_only { (s : Source) (held : Held) (statement rule : ℕ) → (text_step s).gives held (Err (Status.Mistyped statement rule)) → IsMistyped s held statement rule }
    ensures text_always { (s : Source) (held : Held) (statement rule : ℕ) → IsMistyped s held statement rule → (text_step s).gives held (Err (Status.Mistyped statement rule)) }
{}

/// What `format` gives over the held files is the canonical text of the script that they hold at the path.
pub fn forms_are_meant()
    ensures only { (path : Path) (held : Held) (form : Text) → (format_step path).gives held (Ok form) → IsFormMeant path held form }
    ensures always { (path : Path) (held : Held) (form : Text) → IsFormMeant path held form → (format_step path).gives held (Ok form) }
{}

/// What `sql` gives over the held files is a text in SQL of the script that they hold, which is typed; and it may give any
/// such text.
pub fn texts_are_meant()
    ensures only { (s : Source) (held : Held) (text : Text) → (text_step s).gives held (Ok text) → IsTextMeant s held text }
    ensures always { (s : Source) (held : Held) (text : Text) → IsTextMeant s held text → (text_step s).gives held (Ok text) }
{}

/// A run, and so a run in SQL, divides by zero, or a number leaves its range, exactly where its script means this fault
/// over its inputs, in the statement with this result.
pub fn faults_are_meant()
    ensures only { (r : Run) (held : Held) (fault : Fault) (name : Name) → (run_step r).gives held (Err (fault_status fault name)) → IsFaulted r held fault name }
    ensures always { (r : Run) (held : Held) (fault : Fault) (name : Name) → IsFaulted r held fault name → (run_step r).gives held (Err (fault_status fault name)) }
{}

/// The exports that an engine gives over the held files are what its SQL script means: its text, over the data sets that
/// the files of its INPUTs hold, gives exports, and each file is named after an export and holds its text, in order.
pub fn exports_are_meant()
    ensures only { (e : Engine) (held : Held) (files : List File) → (engine_step e).gives held (Ok files) → IsExported e held files }
    ensures always { (e : Engine) (held : Held) (files : List File) → IsExported e held files → (engine_step e).gives held (Ok files) }
{}

/// An engine divides by zero, or a number leaves its range, exactly where its SQL script means this fault over its
/// inputs, in the table with this name up to the first `$`.
pub fn sql_faults_are_meant()
    ensures only { (e : Engine) (held : Held) (fault : Fault) (name : Name) → (engine_step e).gives held (Err (fault_status fault name)) → IsSqlFaulted e held fault name }
    ensures always { (e : Engine) (held : Held) (fault : Fault) (name : Name) → IsSqlFaulted e held fault name → (engine_step e).gives held (Err (fault_status fault name)) }
{}

/// An SQL script that is read and breaks a rule is refused by its first statement that does, with the least rule that
/// this breaks, before any input is looked at.
pub fn sql_breaches_are_refused()
    ensures { (e : Engine) (held : Held) (breach : Breach) → IsSqlMistyped e held breach → (engine_step e).gives held (Err (Status.SqlType breach.0 (number_of breach.1))) }
{}

/// For every list of bytes an INPUT and the declared structure take the same data set, or have the same fault: the INPUT
/// that stands for a data set which a structures file declares asks of its file what the structure asks, under any
/// settings.
pub fn inputs_take_alike()
    ensures { (name : Name) (text : Text) (all : Whole) (t : Structure) (p : Settings) (bytes : Text) → structures_of_file text ≡ Ok all → lookup (same_name name) all.structures.sets ≡ Some t → dataset_rows p (structure_of (input_of all.structures.not_null (name, t))) (not_null_of (input_of all.structures.not_null (name, t))) bytes ≡ dataset_rows p t (list_of name all.structures.not_null) bytes }
{}

/// What the text of a script exports, over all rows that its INPUTs take and whose integers are of the profile, is in names
/// and bytes what the outputs of the script are, or the same fault.
pub fn texts_write_alike()
    ensures { (s : Source) (held : Held) (text : Text) (is : IsTextMeant s held text) (folder : Path) (inputs : Inputs) → AreTaken inputs is.typed.not_null (reads is.typed.structures is.typed.nodes) → AllAreOfProfile is.typed.settings (sets_read inputs (reads is.typed.structures is.typed.nodes)) → exports_of folder is.typed.settings (script_value is.text_of.script inputs) ≡ outputs_of folder is.typed.settings (meant is.typed (sets_read inputs (reads is.typed.structures is.typed.nodes))) }
{}

/// Two outcomes of a command over the same held bytes have the same status, and but for `sql`, whose text may be any text
/// of the script, they are equal: such a command has at most one outcome.
pub fn expected_is_determined()
    ensures status { (command : Option Command) (held : Held) (given other : Result Made Status) → (asked_step command).gives held given → (asked_step command).gives held other → status_of given ≡ status_of other }
    ensures given { (command : Option Command) (held : Held) (given other : Result Made Status) → ((s : Source) → command ≢ Some (sql s)) → (asked_step command).gives held given → (asked_step command).gives held other → given ≡ other }
{}

/// No held files leave a command but `sql` without an outcome; so, with `expected_is_determined`, it has exactly one.
/// And none leave `sql` without one where the script that they hold, if they hold one that is accepted, has a text in SQL.
pub fn expected_is_there()
    ensures given { (command : Option Command) (held : Held) → ((s : Source) → command ≢ Some (sql s)) → ¬ ((given : Result Made Status) → ¬ (asked_step command).gives held given) }
    ensures texts { (s : Source) (held : Held) → ((t : Typed) → IsAccepted s held t → (text : Text) × IsTextOf t text) → ¬ ((given : Result Made Status) → ¬ (asked_step (Some (sql s))).gives held given) }
{}

/// A call in which no count of faults rose answers what the words and the held files give, or that memory ran out. So,
/// unless memory runs out, where a script means results over its inputs, its run is done, in SQL or not, and where it has
/// a fault, that fault is reported; and where a script is accepted, `sql` is done.
pub fn calm_calls_are_complete<F: Files, O: Sink>()
    ensures given { (a b : F) (u v : O) (command : Option Command) (status : Status) (held : Held) (given : Result Made Status) → Ends F.Files O.Sink a b u v command status → IsCalm F.Files O.Sink a b u v → F.held a ≡ Some held → (asked_step command).gives held given → (status ≡ Status.Memory) ⊎ (status ≡ status_of given) }
    ensures meant { (a b : F) (u v : O) (command : Command) (r : Run) (status : Status) (held : Held) (files : List File) → RunsScript command r → Ends F.Files O.Sink a b u v (Some command) status → IsCalm F.Files O.Sink a b u v → F.held a ≡ Some held → IsMeant r held files → (status ≡ Status.Memory) ⊎ (status ≡ Status.Done) }
    ensures faulted { (a b : F) (u v : O) (command : Command) (r : Run) (status : Status) (held : Held) (fault : Fault) (name : Name) → RunsScript command r → Ends F.Files O.Sink a b u v (Some command) status → IsCalm F.Files O.Sink a b u v → F.held a ≡ Some held → IsFaulted r held fault name → (status ≡ Status.Memory) ⊎ (status ≡ fault_status fault name) }
    ensures texts { (a b : F) (u v : O) (s : Source) (status : Status) (held : Held) (t : Typed) → Ends F.Files O.Sink a b u v (Some (sql s)) status → IsCalm F.Files O.Sink a b u v → F.held a ≡ Some held → IsAccepted s held t → (status ≡ Status.Memory) ⊎ (status ≡ Status.Done) }
{}

/// A run that is done, in SQL or not, leaves the sink as before, and so does an engine.
pub fn runs_are_quiet<F: Files, O: Sink>()
    ensures runs { (a b : F) (u v : O) (command : Command) (r : Run) → RunsScript command r → Ends F.Files O.Sink a b u v (Some command) Status.Done → v ≡ u }
    ensures engines { (a b : F) (u v : O) (e : Engine) → Ends F.Files O.Sink a b u v (Some (engine e)) Status.Done → v ≡ u }
{}

/// A `format` that is done has handed the canonical text of the held script to the sink, and written nothing.
pub fn forms_are_said<F: Files, O: Sink>()
    ensures { (a b : F) (u v : O) (path : Path) (held : Held) → F.held a ≡ Some held → Ends F.Files O.Sink a b u v (Some (format path)) Status.Done → (form : Text) × IsFormMeant path held form × Adds (F.written a) (F.written b) [] × Hears O.Sink u v form }
{}

/// What `replay` gives over the held files is what the script means over the inputs as they stand behind the last edit, and
/// the lines of its refreshes; and the other way round.
pub fn replays_are_meant()
    ensures only { (r : Replay) (held : Held) (made : Made) → (replay_step r).gives held (Ok made) → IsReplayMeant r held made }
    ensures always { (r : Replay) (held : Held) (made : Made) → IsReplayMeant r held made → (replay_step r).gives held (Ok made) }
{}

/// What `migrate` gives over the held files is the text of version 2 of the structures file that they hold at the path.
pub fn migrations_are_meant()
    ensures only { (m : Migration) (held : Held) (text : Text) → (migrate_step m).gives held (Ok text) → IsMigrated m held text }
    ensures always { (m : Migration) (held : Held) (text : Text) → IsMigrated m held text → (migrate_step m).gives held (Ok text) }
{}

/// A `migrate` that is done has handed the text of version 2 of the held structures file to the sink, and written nothing.
pub fn migrations_are_said<F: Files, O: Sink>()
    ensures { (a b : F) (u v : O) (m : Migration) (held : Held) → F.held a ≡ Some held → Ends F.Files O.Sink a b u v (Some (migrate m)) Status.Done → (text : Text) × IsMigrated m held text × Adds (F.written a) (F.written b) [] × Hears O.Sink u v text }
{}

/// A demonstration that is done has handed its two lines to the sink, and written nothing.
pub fn demonstrations_are_said<F: Files, O: Sink>()
    ensures { (a b : F) (u v : O) (n : ℕ) (held : Held) → F.held a ≡ Some held → Ends F.Files O.Sink a b u v (Some (demo n)) Status.Done → Adds (F.written a) (F.written b) [] × Hears O.Sink u v (said n) }
{}

/// What a structures file declares under a name is a structure with at least one identifier.
pub fn structures_have_identifiers()
    ensures structure { (name : Name) (text : Text) (all : Whole) (t : Structure) → structures_of_file text ≡ Ok all → lookup (same_name name) all.structures.sets ≡ Some t → IsStructure t }
    ensures identifier { (name : Name) (text : Text) (all : Whole) (t : Structure) → structures_of_file text ≡ Ok all → lookup (same_name name) all.structures.sets ≡ Some t → 1 ≤ key_width t }
{}

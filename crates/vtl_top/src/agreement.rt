// Interpreter and SQL agree.
//
// Agreement is said over held files that are twins (specs/Agreement.antt): the one holds the script and its inputs,
// the other the same inputs and the script's text. A user runs `sql` first and writes its text to a file, so the
// files differ by that. The folders of outputs may differ: names agree behind the folder words.
ghost use Rattle.std.specs.Prelude.{◌≡◌, ◌⊎◌, List, Result, Some};
ghost use Rattle.vtl_top.specs.Agreement.{AreSameFiles, AreSameMade, AreTwins, ComeToSame, EndAlike, GivesOne, IsKept, IsOutcomeOf, IsPrinted, WroteSame};
ghost use Rattle.vtl_top.specs.Answered.{Ends};
ghost use Rattle.vtl_top.specs.Complete.{IsCalm};
ghost use Rattle.vtl_top.specs.Expected.{run_step};
ghost use Rattle.vtl_top.specs.Forms.{asked_step};
ghost use Rattle.vtl_top.specs.SqlRun.{engine_step};
ghost use Rattle.vtl_top.specs.Steps.{File, Held, Made};
ghost use Rattle.vtl_top.specs.Words.{Command, Engine, Run, RunsScript, engine, run, sql};
ghost use Rattle.vtl_status.specs.declared.status.Status.{Status};

use vtl_files::{Files, Sink};

/// For every script that is accepted, and whatever bytes the files hold that its data sets are read from, interpreting the
/// script and running its text in SQL come to the same: the same files with the same bytes in the same order, named alike
/// behind the folder of outputs, or the same status and no file. That is the same fault, division by zero or a number out
/// of range, with the name of the same result; or the same fault of the same input, be it that its file is not there. The
/// text is any that `sql` may give for the script.
///
/// `engine` and `run` say it of the steps, both ways. `outcome` says it of the commands: there is an outcome of each, and
/// they come to the same; and `outcomes` that whatever the words `run` come to, and whatever the words `engine` come to,
/// does. By `printed` all of this holds of what the words `sql` print, kept as the SQL file.
pub fn interpreter_and_sql_agree()
    ensures engine { (r : Run) (e : Engine) (held other : Held) (given : Result (List File) Status) → AreTwins r e held other → (run_step r).gives held given → GivesOne (engine_step e) other (λ found. ComeToSame (AreSameFiles r.output e.output) given found) }
    ensures run { (r : Run) (e : Engine) (held other : Held) (found : Result (List File) Status) → AreTwins r e held other → (engine_step e).gives other found → GivesOne (run_step r) held (λ given. ComeToSame (AreSameFiles r.output e.output) given found) }
    ensures outcome { (r : Run) (e : Engine) (held other : Held) → AreTwins r e held other → IsOutcomeOf r e held other }
    ensures outcomes { (r : Run) (e : Engine) (held other : Held) (given found : Result Made Status) → AreTwins r e held other → (asked_step (Some (run r))).gives held given → (asked_step (Some (engine e))).gives other found → ComeToSame (AreSameMade r.output e.output) given found }
    ensures printed { (r : Run) (e : Engine) (held other : Held) → IsPrinted r e held other → AreTwins r e held other }
{}

/// So two calls, one that runs a script and one of an engine that is given its text, answer the same status where nothing
/// failed in them, unless memory ran out in one; and where both are done, they wrote the same files with the same bytes in
/// the same order.
///
/// `kept` says it of three calls: one of `sql` that was done, whose text the sink took and which was kept as a file, one
/// that runs the script, and one of an engine over that file.
pub fn agreeing_calls_end_alike<F: Files, O: Sink>()
    ensures status { (a b c d : F) (u v w x : O) (command : Command) (r : Run) (e : Engine) (held other : Held) (status found : Status) → RunsScript command r → AreTwins r e held other → F.held a ≡ Some held → F.held c ≡ Some other → Ends F.Files O.Sink a b u v (Some command) status → Ends F.Files O.Sink c d w x (Some (engine e)) found → IsCalm F.Files O.Sink a b u v → IsCalm F.Files O.Sink c d w x → (status ≡ Status.Memory) ⊎ ((found ≡ Status.Memory) ⊎ (status ≡ found)) }
    ensures files { (a b c d : F) (u v w x : O) (command : Command) (r : Run) (e : Engine) (held other : Held) → RunsScript command r → AreTwins r e held other → F.held a ≡ Some held → F.held c ≡ Some other → Ends F.Files O.Sink a b u v (Some command) Status.Done → Ends F.Files O.Sink c d w x (Some (engine e)) Status.Done → WroteSame F.Files r.output e.output a b c d }
    ensures kept { (s t a b c d : F) (k l u v w x : O) (command : Command) (r : Run) (e : Engine) (held other : Held) (status found : Status) → Ends F.Files O.Sink s t k l (Some (sql r.source)) Status.Done → F.held s ≡ Some held → IsKept O.Sink k l r e held other → RunsScript command r → F.held a ≡ Some held → F.held c ≡ Some other → Ends F.Files O.Sink a b u v (Some command) status → Ends F.Files O.Sink c d w x (Some (engine e)) found → IsCalm F.Files O.Sink a b u v → IsCalm F.Files O.Sink c d w x → EndAlike F.Files r.output e.output a b c d status found }
{}

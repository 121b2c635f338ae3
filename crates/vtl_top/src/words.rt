// The words of the command line.
//
// What options chose is kept apart from the settings of a run, which come of it and of what the structures file
// declares.
ghost use Rattle.std.specs.Prelude.{◌≡◌, ◌∷◌, [], map, option_map, string_bytes};
ghost use Rattle.vtl_top.specs.RunView.{command_view, engine_view, migration_view, replay_view, run_view, setting_view, source_view};
ghost use Rattle.vtl_top.specs.Words.{both_set, chosen_in, chosen_with, command_of, default_settings, engine_of, is_path, migration_of, one_set, path_of, points_of, replay_of, rounding, rounding_in, run_of, scale, scale_in, setting_in, settings_for, source_of};

use crate::points::Points;
use std::marker::Model;
use vtl_decimal::{Profile, Rounding};

/// What options chose: a scale of at most 9, and a rounding, each or not.
#[derive(Clone, Copy)]
pub struct Chosen {
    scale: Option<u8>,
    rounding: Option<Rounding>,
}

impl Model for Chosen {
    ghost use Rattle.std.specs.Prelude.{◌≤◌, IfSome};
    ghost use Rattle.vtl_top.specs.Words.{Chosen as Choices};

    ghost Value = { Choices };

    ghost view = { λ c. record { scale = c.scale; rounding = c.rounding } };

    ghost invariant = { λ c. IfSome c.scale (λ digits. digits ≤ 9) };

    ghost inverse = { λ v. record { scale = v.scale; rounding = v.rounding } };
}

impl Chosen {
    /// These choices, or None where the scale is over 9.
    pub fn new(scale: Option<u8>, rounding: Option<Rounding>) -> Option<Chosen>
        ensures { result ≡ chosen_with scale rounding }
    {
        match scale {
            Some(digits) if digits > 9 => None,
            _ => Some(Chosen { scale, rounding }),
        }
    }

    /// The profile of a run: of scale and rounding each what was chosen, else what a structures file declares, else 6 and
    /// half up.
    pub fn profile(&self, declared: Option<Profile>) -> Profile
        ensures { result ≡ settings_for self.now declared }
    {
        let start = match declared {
            Some(profile) => profile,
            None => default_profile(),
        };
        let scale = self.scale.unwrap_or(start.scale());
        let rounding = self.rounding.unwrap_or(start.rounding());
        match Profile::new(scale, rounding) {
            Some(profile) => profile,
            None => unreachable!(),
        }
    }
}

// Six digits after the point, and halves go away from zero.
fn default_profile() -> Profile
    ensures { result ≡ default_settings }
{
    match Profile::new(6, Rounding::HalfUp) {
        Some(profile) => profile,
        None => unreachable!(),
    }
}

/// The paths of a script and of its structures, and what the options chose.
#[derive(Drop)]
pub struct Source<'a> {
    /// The path of the script.
    pub script: &'a str,
    /// The path of its structures.
    pub structures: &'a str,
    /// What the options chose.
    pub chosen: Chosen,
}

/// A structures file that is written as version 2, and what the options chose.
#[derive(Drop)]
pub struct Migration<'a> {
    /// The path of the structures file.
    pub structures: &'a str,
    /// What the options chose.
    pub chosen: Chosen,
}

/// A script that is run, from the folder of its inputs into the folder of its outputs.
#[derive(Drop)]
pub struct Run<'a> {
    pub source: Source<'a>,
    pub input: &'a str,
    pub output: &'a str,
}

/// A script that is run, and run again each time that an input is replaced, as the edits file says.
#[derive(Drop)]
pub struct Replay<'a> {
    pub source: Source<'a>,
    pub input: &'a str,
    /// The path of the edits file.
    pub edits: &'a str,
    pub output: &'a str,
}

/// An SQL file that is run, from the folder of its inputs into the folder of its exports.
#[derive(Drop)]
pub struct Engine<'a> {
    pub sql: &'a str,
    pub input: &'a str,
    pub output: &'a str,
}

/// What the words ask for.
#[derive(Drop)]
pub enum Command<'a> {
    /// A script is run by the interpreter.
    Run(Run<'a>),
    /// A script is run by its text in SQL.
    SqlRun(Run<'a>),
    /// The text of a script in SQL is said.
    Sql(Source<'a>),
    /// An SQL file is run.
    Engine(Engine<'a>),
    /// A script is run while its inputs are replaced.
    Replay(Replay<'a>),
    /// The links of a script are said.
    Lineage(Source<'a>),
    /// The canonical text of the script at this path is said.
    Format(&'a str),
    /// A structures file is said as version 2.
    Migrate(Migration<'a>),
    /// The demonstration is run over so many points, in both ways.
    Demo(Points),
}

// What an option sets.
#[derive(Clone, Copy)]
enum Setting {
    // How many digits a number has after its point, 0 to 9.
    Scale(u8),
    // How results are rounded to them.
    Rounding(Rounding),
}

fn is_path(word: &str) -> bool
    ensures { result ≡ is_path word.now }
{
    !word.is_empty()
}

/// The command that the words are, by its name: `run` or `sqlrun`, and SCRIPT STRUCTURES IN OUT, each a path that is not
/// empty, and then the options `--scale D` and `--round R`, each at most once; `sql`, and SCRIPT STRUCTURES and such
/// options; `engine`, and SQLFILE IN OUT; `replay`, and SCRIPT STRUCTURES IN EDITS OUT and such options; `lineage`, with
/// the same words as `sql`; `format`, and SCRIPT;
/// `migrate`, and STRUCTURES and such options; or `demo`, and the decimal of a number of points.
pub fn command_of(words: &[String]) -> Option<Command<'_>>
    ensures { option_map command_view result ≡ command_of (map string_bytes words.now) }
{
    match words {
        [name, rest @ ..] => named(name.as_str(), rest),
        [] => None,
    }
}

fn named<'a>(name: &str, words: &'a [String]) -> Option<Command<'a>>
    ensures { option_map command_view result ≡ command_of (name.now ∷ map string_bytes words.now) }
{
    if name == "run" {
        return match run_of(words) {
            Some(run) => Some(Command::Run(run)),
            None => None,
        };
    }
    if name == "sqlrun" {
        return match run_of(words) {
            Some(run) => Some(Command::SqlRun(run)),
            None => None,
        };
    }
    if name == "sql" {
        return match source_of(words) {
            Some(source) => Some(Command::Sql(source)),
            None => None,
        };
    }
    if name == "engine" {
        return match engine_of(words) {
            Some(engine) => Some(Command::Engine(engine)),
            None => None,
        };
    }
    if name == "replay" {
        return match replay_of(words) {
            Some(replay) => Some(Command::Replay(replay)),
            None => None,
        };
    }
    if name == "lineage" {
        return match source_of(words) {
            Some(source) => Some(Command::Lineage(source)),
            None => None,
        };
    }
    if name == "format" {
        return match path_of(words) {
            Some(path) => Some(Command::Format(path)),
            None => None,
        };
    }
    if name == "migrate" {
        return match migration_of(words) {
            Some(migration) => Some(Command::Migrate(migration)),
            None => None,
        };
    }
    if name == "demo" {
        return match points_of(words) {
            Some(points) => Some(Command::Demo(points)),
            None => None,
        };
    }
    None
}

fn path_of(words: &[String]) -> Option<&str>
    ensures { option_map (λ path. path.now) result ≡ path_of (map string_bytes words.now) }
{
    match words {
        [path] if is_path(path.as_str()) => Some(path.as_str()),
        _ => None,
    }
}

fn migration_of(words: &[String]) -> Option<Migration<'_>>
    ensures { option_map migration_view result ≡ migration_of (map string_bytes words.now) }
{
    match words {
        [structures, options @ ..] => migration_with(structures.as_str(), options),
        [] => None,
    }
}

fn migration_with<'a>(structures: &'a str, options: &[String]) -> Option<Migration<'a>>
    ensures { option_map migration_view result ≡ migration_of (structures.now ∷ map string_bytes options.now) }
{
    if !is_path(structures) {
        return None;
    }
    let chosen = chosen_of(options)?;
    Some(Migration { structures, chosen })
}

fn points_of(words: &[String]) -> Option<Points>
    ensures { result ≡ points_of (map string_bytes words.now) }
{
    match words {
        [word] => Points::of(word.as_str()),
        _ => None,
    }
}

fn source_of(words: &[String]) -> Option<Source<'_>>
    ensures { option_map source_view result ≡ source_of (map string_bytes words.now) }
{
    match words {
        [script, structures, options @ ..] => {
            source_with(script.as_str(), structures.as_str(), options)
        }
        _ => None,
    }
}

fn source_with<'a>(script: &'a str, structures: &'a str, options: &[String]) -> Option<Source<'a>>
    ensures { option_map source_view result ≡ source_of (script.now ∷ structures.now ∷ map string_bytes options.now) }
{
    if !is_path(script) || !is_path(structures) {
        return None;
    }
    let chosen = chosen_of(options)?;
    Some(Source {
        script,
        structures,
        chosen,
    })
}

fn run_of(words: &[String]) -> Option<Run<'_>>
    ensures { option_map run_view result ≡ run_of (map string_bytes words.now) }
{
    match words {
        [script, structures, input, output, options @ ..] => run_with(
            script.as_str(),
            structures.as_str(),
            input.as_str(),
            output.as_str(),
            options,
        ),
        _ => None,
    }
}

fn run_with<'a>(
    script: &'a str,
    structures: &'a str,
    input: &'a str,
    output: &'a str,
    options: &[String],
) -> Option<Run<'a>>
    ensures { option_map run_view result ≡ run_of (script.now ∷ structures.now ∷ input.now ∷ output.now ∷ map string_bytes options.now) }
{
    if !is_path(input) || !is_path(output) {
        return None;
    }
    match source_with(script, structures, options) {
        Some(source) => Some(Run {
            source,
            input,
            output,
        }),
        None => None,
    }
}

fn replay_of(words: &[String]) -> Option<Replay<'_>>
    ensures { option_map replay_view result ≡ replay_of (map string_bytes words.now) }
{
    match words {
        [script, structures, input, edits, output, options @ ..] => replay_with(
            script.as_str(),
            structures.as_str(),
            input.as_str(),
            edits.as_str(),
            output.as_str(),
            options,
        ),
        _ => None,
    }
}

fn replay_with<'a>(
    script: &'a str,
    structures: &'a str,
    input: &'a str,
    edits: &'a str,
    output: &'a str,
    options: &[String],
) -> Option<Replay<'a>>
    ensures { option_map replay_view result ≡ replay_of (script.now ∷ structures.now ∷ input.now ∷ edits.now ∷ output.now ∷ map string_bytes options.now) }
{
    if !is_path(input) || !is_path(edits) || !is_path(output) {
        return None;
    }
    match source_with(script, structures, options) {
        Some(source) => Some(Replay {
            source,
            input,
            edits,
            output,
        }),
        None => None,
    }
}

fn engine_of(words: &[String]) -> Option<Engine<'_>>
    ensures { option_map engine_view result ≡ engine_of (map string_bytes words.now) }
{
    match words {
        [sql, input, output] => engine_with(sql.as_str(), input.as_str(), output.as_str()),
        _ => None,
    }
}

fn engine_with<'a>(sql: &'a str, input: &'a str, output: &'a str) -> Option<Engine<'a>>
    ensures { option_map engine_view result ≡ engine_of (sql.now ∷ input.now ∷ output.now ∷ []) }
{
    if !is_path(sql) || !is_path(input) || !is_path(output) {
        return None;
    }
    Some(Engine { sql, input, output })
}

// What options choose.
fn chosen_of(options: &[String]) -> Option<Chosen>
    ensures { result ≡ chosen_in (map string_bytes options.now) }
{
    if options.is_empty() {
        return Chosen::new(None, None);
    }
    if options.len() == 2 {
        return one_set(setting_of(options[0].as_str(), options[1].as_str())?);
    }
    if options.len() == 4 {
        let first = setting_of(options[0].as_str(), options[1].as_str())?;
        let second = setting_of(options[2].as_str(), options[3].as_str())?;
        return both_set(first, second);
    }
    None
}

// One option.
fn one_set(setting: Setting) -> Option<Chosen>
    ensures { result ≡ one_set (setting_view setting) }
{
    match setting {
        Setting::Scale(scale) => Chosen::new(Some(scale), None),
        Setting::Rounding(rounding) => Chosen::new(None, Some(rounding)),
    }
}

// Each of the two options once.
fn both_set(first: Setting, second: Setting) -> Option<Chosen>
    ensures { result ≡ both_set (setting_view first) (setting_view second) }
{
    match (first, second) {
        (Setting::Scale(scale), Setting::Rounding(rounding)) => {
            Chosen::new(Some(scale), Some(rounding))
        }
        (Setting::Rounding(rounding), Setting::Scale(scale)) => {
            Chosen::new(Some(scale), Some(rounding))
        }
        _ => None,
    }
}

// What an option of this name and value sets.
fn setting_of(name: &str, value: &str) -> Option<Setting>
    ensures { option_map setting_view result ≡ setting_in name.now value.now }
{
    if name == "--scale" {
        return scale_setting(value);
    }
    if name == "--round" {
        return rounding_setting(value);
    }
    None
}

fn scale_setting(value: &str) -> Option<Setting>
    ensures { option_map setting_view result ≡ option_map scale (scale_in value.now) }
{
    match value.as_bytes() {
        [digit] if digit.is_ascii_digit() => Some(Setting::Scale(*digit - b'0')),
        _ => None,
    }
}

fn rounding_setting(value: &str) -> Option<Setting>
    ensures { option_map setting_view result ≡ option_map rounding (rounding_in value.now) }
{
    if value == "half_up" {
        return Some(Setting::Rounding(Rounding::HalfUp));
    }
    if value == "half_even" {
        return Some(Setting::Rounding(Rounding::HalfEven));
    }
    if value == "down" {
        return Some(Setting::Rounding(Rounding::Down));
    }
    None
}

// INPUT.
//
// An INPUT's columns stand with its KEY first, each part in the order in which it lists them. The key is looked up in
// a set, so that a list of many columns takes no square of time.
ghost use Rattle.std.specs.List.{list_any};
ghost use Rattle.std.specs.Map.{keys_of};
ghost use Rattle.std.specs.Option.{is_none};
ghost use Rattle.std.specs.Prelude.{◌≡◌, ◌||◌, ◌++◌, ◌∷◌, [], ℕ, List, filter, length, nat_lt, not, IfOk, OnOk, map};
ghost use Rattle.vtl_cell.specs.declared.kind.Kind.{Kind};
ghost use Rattle.vtl_text.specs.Words.{is_word};
ghost use Rattle.sql_check_parts.specs.Rules.{least};
ghost use Rattle.sql_check_parts.specs.Scopes.{is_among, is_empty, repeats, value_among};
ghost use Rattle.sql_check_parts.specs.Statements.{codes_fit, input_breaks, input_columns, is_taken, is_text, most_input_columns, names_fit};
ghost use Rattle.sql_check_parts.specs.Told.{distinct_columns};
ghost use Rattle.sql_check.specs.Answers.{is_wanted};

use sql_check_parts::{Columns, MOST_INPUT_COLUMNS, SqlRule, Tables, Test, least_broken, repeats};
use sql_tree::{InputColumn, SqlInput};
use std::alloc::{AllocError, Global};
use vtl_cell::Kind;
use vtl_text::{ByName, Txt, is_word};

// The names of a key, to be looked up.
fn key_set(alloc: Global, key: &[Txt]) -> Result<ByName<()>, AllocError>
    ensures { IfOk result (λ names. (name : List ℕ) → is_among name (keys_of names) ≡ is_among name key.now) }
{
    let mut names = ByName::new(alloc);
    for name in key {
        if !names.has(name) {
            names.put(name.share()?, ())?;
        }
    }
    Ok(names)
}

// Whether a column is wanted: one of a key, or one that is not.
fn is_wanted(key: &ByName<()>, of_key: bool, column: &InputColumn) -> bool
    ensures { result ≡ is_wanted (keys_of key.now) of_key column.now }
{
    let is_of_key = key.has(&column.name);
    if of_key { is_of_key } else { !is_of_key }
}

// The names of columns, and their kinds.
#[derive(Drop)]
struct Listed {
    names: Vec<Txt>,
    kinds: Vec<Kind>,
}

impl Listed {
    // No columns.
    fn new(alloc: Global) -> Listed
        ensures names { result.names.items ≡ [] }
        ensures kinds { result.kinds.items ≡ [] }
    {
        Listed {
            names: Vec::new(alloc),
            kinds: Vec::new(alloc),
        }
    }

    // Puts a column behind the others.
    fn put(&mut self, column: &InputColumn) -> Result<(), AllocError>
        ensures names { OnOk result (self.new.names.items ≡ self.old.names.items ++ column.now.name ∷ []) }
        ensures kinds { OnOk result (self.new.kinds.items ≡ self.old.kinds.items ++ column.now.kind ∷ []) }
    {
        self.names.push(column.name.share()?)?;
        self.kinds.push(column.kind)?;
        Ok(())
    }

    // Puts those columns behind the others that are of a key, or those that are not.
    fn put_those(
        &mut self,
        key: &ByName<()>,
        of_key: bool,
        columns: &[InputColumn],
    ) -> Result<(), AllocError>
        ensures names { OnOk result (self.new.names.items ≡ self.old.names.items ++ map (λ c. c.name) (filter (is_wanted (keys_of key.now) of_key) columns.now)) }
        ensures kinds { OnOk result (self.new.kinds.items ≡ self.old.kinds.items ++ map (λ c. c.kind) (filter (is_wanted (keys_of key.now) of_key) columns.now)) }
    {
        for column in columns {
            if is_wanted(key, of_key, column) {
                self.put(column)?;
            }
        }
        Ok(())
    }
}

/// The columns of an input's table; none where a name stands twice. It fails only if memory runs out.
pub fn input_columns(alloc: Global, input: &SqlInput) -> Result<Option<Columns>, AllocError>
    ensures { IfOk result (λ columns. columns ≡ distinct_columns (input_columns input.now)) }
{
    let columns = input.columns.as_slice();
    let key = key_set(alloc, input.key.as_slice())?;
    let mut listed = Listed::new(alloc);
    listed.put_those(&key, true, columns)?;
    listed.put_those(&key, false, columns)?;
    Columns::of(alloc, &listed.names, &listed.kinds)
}

fn any_unknown(columns: &Columns, names: &[Txt]) -> bool
    ensures { result ≡ list_any (λ name. is_none (value_among columns.now name)) names.now }
{
    for name in names {
        if columns.kind(name).is_none() {
            return true;
        }
    }
    false
}

/// Whether names are columns, and none stands twice. It fails only if memory runs out.
pub fn names_fit(alloc: Global, columns: &Columns, names: &[Txt]) -> Result<bool, AllocError>
    ensures { IfOk result (λ b. b ≡ names_fit columns.now names.now) }
{
    let twice = repeats(alloc, names)?;
    Ok(!twice && !any_unknown(columns, names))
}

// Whether a column's name stands twice, or the key is not made of the columns.
fn key_misplaced(alloc: Global, columns: &Option<Columns>, key: &[Txt]) -> Result<bool, AllocError>
    ensures { (all : List (List ℕ × Kind)) → columns.now ≡ distinct_columns all → IfOk result (λ b. b ≡ (repeats (keys_of all) || not (names_fit all key.now))) }
{
    match columns {
        Some(columns) => Ok(!names_fit(alloc, columns, key)?),
        None => Ok(true),
    }
}

fn is_among(name: &Txt, names: &[Txt]) -> bool
    ensures { result ≡ is_among name.now names.now }
{
    for other in names {
        if name == other {
            return true;
        }
    }
    false
}

fn is_empty(text: &Txt) -> bool
    ensures { result ≡ is_empty text.now }
{
    text.as_str().is_empty()
}

fn any_empty(codes: &[Txt]) -> bool
    ensures { result ≡ list_any is_empty codes.now }
{
    for code in codes {
        if is_empty(code) {
            return true;
        }
    }
    false
}

fn is_text(kind: Kind) -> bool
    ensures { result ≡ is_text kind }
{
    match kind {
        Kind::Text => true,
        _ => false,
    }
}

// Whether the codes of a column belong to a text in the key, and none of them is empty or stands twice.
fn codes_fit(alloc: Global, key: &[Txt], column: &InputColumn) -> Result<bool, AllocError>
    ensures { IfOk result (λ b. b ≡ codes_fit key.now column.now) }
{
    let codes = column.codes.as_slice();
    match codes {
        [] => Ok(true),
        _ => {
            let twice = repeats(alloc, codes)?;
            let placed = is_text(column.kind) && is_among(&column.name, key);
            Ok(placed && !any_empty(codes) && !twice)
        }
    }
}

fn any_misplaced(alloc: Global, key: &[Txt], columns: &[InputColumn]) -> Result<bool, AllocError>
    ensures { IfOk result (λ b. b ≡ list_any (λ c. not (codes_fit key.now c)) columns.now) }
{
    for column in columns {
        if !codes_fit(alloc, key, column)? {
            return Ok(true);
        }
    }
    Ok(false)
}

// Whether codes stand where they may not, or there are too many columns; where there are too many, their codes are not
// looked at.
fn codes_misplaced(alloc: Global, input: &SqlInput) -> Result<bool, AllocError>
    ensures { IfOk result (λ b. b ≡ (list_any (λ c. not (codes_fit input.now.key c)) input.now.columns || nat_lt most_input_columns (length input.now.columns))) }
{
    if input.columns.as_slice().len() > MOST_INPUT_COLUMNS {
        Ok(true)
    } else {
        any_misplaced(alloc, input.key.as_slice(), input.columns.as_slice())
    }
}

/// Whether a table may not have a name that has to be a word.
fn is_misnamed(tables: &Tables, name: &Txt) -> bool
    ensures { result ≡ (is_taken tables.now name.now || not (is_word name.now)) }
{
    tables.has(name) || !is_word(name.as_str())
}

/// The least of the rules that an input with these columns breaks. It fails only if memory runs out.
pub fn input_fault(
    alloc: Global,
    tables: &Tables,
    input: &SqlInput,
    columns: &Option<Columns>,
) -> Result<Option<SqlRule>, AllocError>
    requires { columns.now ≡ distinct_columns (input_columns input.now) }
    ensures { IfOk result (λ fault. fault ≡ least (input_breaks tables.now input.now)) }
{
    let misplaced = key_misplaced(alloc, columns, input.key.as_slice())?;
    let codes = codes_misplaced(alloc, input)?;
    Ok(least_broken(&[
        Test {
            rule: SqlRule::MisnamedTable,
            is_broken: is_misnamed(tables, &input.name),
        },
        Test {
            rule: SqlRule::MisnamedColumn,
            is_broken: misplaced,
        },
        Test {
            rule: SqlRule::CodesOrCount,
            is_broken: codes,
        },
    ]))
}

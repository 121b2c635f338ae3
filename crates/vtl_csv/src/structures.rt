// What a structures file declares.
ghost use Rattle.std.specs.Prelude.{◌≡◌, ◌+◌, ◌<◌, ◌^◌, [], false, IfOk, OnOk, Ok, drop, length, option_map};
ghost use Rattle.std.specs.List.{list_any};
ghost use Rattle.vtl_tree.specs.NotNull.{no_sets};
ghost use Rattle.vtl_csv.specs.FaultFields.{answer_of, fault_of};
ghost use Rattle.vtl_csv.specs.Opening.{first_line, opening_of};
ghost use Rattle.vtl_csv.specs.StructuresFile.{Gives, declaring, is_identifier, lacks_identifier, lines_declare, lines_in, lines_read, outcome, records_in, structures_of_file, with_record, without_identifier};

use crate::declarations::{component, components, data_set_name, read_declaration};
use crate::fields::Fields;
use crate::opening::{first_line, read_opening, skip_opening};
use crate::records::RecordReader;
use crate::version::{Opening, Version};
use std::alloc::{AllocError, Global};
use thiserror::Error;
use vtl_decimal::Profile;
use vtl_text::Txt;
use vtl_tree::{Component, Role, Structures};

/// Why a structures file declares no structures.
#[derive(Debug, Drop, Error)]
pub enum StructErr {
    /// A line, which is the number of a record from 1 on, breaks a rule of docs/FILES.md.
    #[error("structures line {line} rule {rule}")]
    Structure {
        /// The number of the record.
        line: u64,
        /// The number of the rule.
        rule: u8,
    },
    /// There was not enough memory.
    #[error("out of memory")]
    OutOfMemory,
}

impl From<AllocError> for StructErr {
    ghost use Rattle.std.specs.Prelude.{◌≡◌};
    ghost use Rattle.vtl_csv.specs.declared.structures.StructErr.TheVariants.{OutOfMemory};

    ghost from_gives = { λ _ e. e ≡ OutOfMemory };

    fn from(_: AllocError) -> StructErr {
        StructErr::OutOfMemory
    }
}

// A line and the rule that it breaks.
#[derive(Clone, Copy)]
pub struct Fault {
    pub line: u64,
    pub rule: u8,
}

/// What a structures file declares: structures, with their not-null lists, and in version 2 a profile.
pub struct Declared {
    /// The structures.
    pub structures: Structures,
    /// The scale and the rounding, where the file is of version 2.
    pub profile: Option<Profile>,
}

// Written out, so that a proof above sees one call and not the drop of each part.
impl Drop for Declared {
    fn drop(self) {
        let Declared {
            structures: _structures,
            profile: _profile,
        } = self;
    }
}

pub fn is_identifier(component: &Component) -> bool
    ensures { result ≡ is_identifier component.now }
{
    match component.role {
        Role::Identifier => true,
        Role::Measure | Role::Attribute => false,
    }
}

fn has_identifier(components: &[Component]) -> bool
    ensures { result ≡ list_any is_identifier components.now }
{
    for component in components {
        if is_identifier(component) {
            return true;
        }
    }
    false
}

// Whether the data set of a record has no identifier.
fn lacks_identifier(
    alloc: Global,
    version: Version,
    structures: &Structures,
    fields: &Fields,
) -> Result<bool, AllocError>
    ensures { IfOk result (λ b. b ≡ lacks_identifier version structures.now.sets fields.now) }
{
    let Some(line) = read_declaration(version, fields) else {
        return Ok(false);
    };
    let Some(dataset) = data_set_name(line) else {
        return Ok(false);
    };
    let dataset = Txt::new(alloc, dataset)?;
    Ok(!has_identifier(components(structures, &dataset)))
}

// The first line of a data set without an identifier, among those that declare components.
fn without_identifier<'a>(
    alloc: Global,
    version: Version,
    structures: &Structures,
    reader: &mut RecordReader<'a>,
    fields: &mut Fields<'a>,
) -> Result<Option<u64>, AllocError>
    requires { length reader.old < 2 ^ 63 }
    ensures { IfOk result (λ o. o ≡ without_identifier version (first_line version) structures.now.sets reader.old) }
{
    let mut line = first_line(version);
    while reader.next(fields)? {
        if lacks_identifier(alloc, version, structures, fields)? {
            return Ok(Some(line));
        }
        line += 1;
    }
    Ok(None)
}

// Adds what a record declares, and answers the first rule that the record breaks, if it does.
fn add_record(
    alloc: Global,
    version: Version,
    structures: &mut Structures,
    fields: &Fields,
) -> Result<Option<u8>, AllocError>
    ensures { IfOk result (λ o. outcome structures.new o ≡ with_record version structures.old fields.now) }
{
    match component(alloc, version, structures, fields)? {
        Ok(new) => {
            new.add_to(structures)?;
            Ok(None)
        }
        Err(rule) => Ok(Some(rule)),
    }
}

// Adds what the remaining records declare, and answers the first fault, if there is one.
fn add_records<'a>(
    alloc: Global,
    version: Version,
    structures: &mut Structures,
    reader: &mut RecordReader<'a>,
    fields: &mut Fields<'a>,
) -> Result<Option<Fault>, AllocError>
    requires { length reader.old < 2 ^ 63 }
    ensures { IfOk result (λ o. outcome structures.new (option_map fault_of o) ≡ lines_declare version (first_line version) structures.old reader.old) }
{
    let mut line = first_line(version);
    while reader.next(fields)? {
        if let Some(rule) = add_record(alloc, version, structures, fields)? {
            return Ok(Some(Fault { line, rule }));
        }
        line += 1;
    }
    Ok(None)
}

// The first line of a data set without an identifier, in a text of this version whose lines declare these structures.
fn missing_identifier(
    alloc: Global,
    version: Version,
    structures: &Structures,
    text: &[u8],
) -> Result<Option<u64>, AllocError>
    ensures { IfOk result (λ o. o ≡ without_identifier version (first_line version) structures.now.sets (declaring version (records_in text.now))) }
{
    let mut reader = RecordReader::new(alloc, text);
    let mut fields = Fields::new(alloc);
    skip_opening(version, &mut reader, &mut fields)?;
    without_identifier(alloc, version, structures, &mut reader, &mut fields)
}

// Adds what the lines of a text declare to no structures, and answers how it begins, or the first fault of a rule but 10.
fn add_lines(
    alloc: Global,
    structures: &mut Structures,
    text: &[u8],
) -> Result<Result<Opening, Fault>, AllocError>
    requires { structures.old ≡ no_sets }
    ensures lines { IfOk result (λ r. lines_read structures.new (answer_of r) ≡ lines_in (records_in text.now)) }
    ensures opening { IfOk result (λ r. IfOk r (λ o. opening_of (records_in text.now) ≡ Ok o)) }
{
    let mut reader = RecordReader::new(alloc, text);
    let mut fields = Fields::new(alloc);
    let opening = match read_opening(&mut reader, &mut fields)? {
        Ok(opening) => opening,
        Err(fault) => return Ok(Err(fault)),
    };
    match add_records(alloc, opening.version, structures, &mut reader, &mut fields)? {
        Some(fault) => Ok(Err(fault)),
        None => Ok(Ok(opening)),
    }
}

// What a text declares, or its first fault.
fn read_text(alloc: Global, text: &[u8]) -> Result<Result<Declared, Fault>, AllocError>
    ensures { IfOk result (λ r. answer_of r ≡ structures_of_file text.now) }
{
    let mut structures = Structures::new(alloc);
    let opening = match add_lines(alloc, &mut structures, text)? {
        Ok(opening) => opening,
        Err(fault) => return Ok(Err(fault)),
    };
    match missing_identifier(alloc, opening.version, &structures, text)? {
        Some(line) => Ok(Err(Fault { line, rule: 10 })),
        None => Ok(Ok(Declared {
            structures,
            profile: opening.profile,
        })),
    }
}

/// What a structures file of version 1 or 2 declares, or its first fault by line and then by rule; that a data set has no
/// identifier, rule 10, is looked at only where no line breaks another rule. It otherwise fails only if memory runs
/// out.
pub fn read_structures(alloc: Global, text: &[u8]) -> Result<Declared, StructErr>
    ensures { Gives result (structures_of_file text.now) }
{
    match read_text(alloc, text)? {
        Ok(declared) => Ok(declared),
        Err(fault) => Err(StructErr::Structure {
            line: fault.line,
            rule: fault.rule,
        }),
    }
}

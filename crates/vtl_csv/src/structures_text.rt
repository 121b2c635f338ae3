// The text of a structures file of version 2.
ghost use Rattle.std.specs.Prelude.{◌≡◌, ◌++◌, ◌∷◌, [], map, flat_map, encode_utf8_all, length, IfOk, OnOk};
ghost use Rattle.csv.specs.Records.{fields_of, partial_of};
ghost use Rattle.csv.specs.Writing.{default_writer, row_text};
ghost use Rattle.vtl_csv.specs.PlainLines.{slices_shown};
ghost use Rattle.vtl_csv.specs.StructuresText.{barred, codes_field, component_record, heading_record, joined, kind_word, nullable_word, profile_record, role_word, rounding_word, second_text, set_records};
ghost use Rattle.vtl_tree.specs.NotNull.{not_null_of};

use crate::row_text::RowWriter;
use crate::structures::is_identifier;
use csv::ByteRecord;
use std::alloc::{AllocError, Global};
use vtl_cell::Kind;
use vtl_decimal::{Profile, Rounding};
use vtl_text::Txt;
use vtl_tree::{Component, Role, Structures, is_among};

fn rounding_word(rounding: Rounding) -> &'static [u8]
    ensures { result.now ≡ rounding_word rounding }
{
    match rounding {
        Rounding::HalfUp => b"half_up",
        Rounding::HalfEven => b"half_even",
        Rounding::Down => b"down",
    }
}

fn role_word(role: Role) -> &'static [u8]
    ensures { result.now ≡ role_word role }
{
    match role {
        Role::Identifier => b"identifier",
        Role::Measure => b"measure",
        Role::Attribute => b"attribute",
    }
}

fn kind_word(kind: Kind) -> &'static [u8]
    ensures { result.now ≡ kind_word kind }
{
    match kind {
        Kind::Null => b"",
        Kind::Bool => b"boolean",
        Kind::Int => b"integer",
        Kind::Num => b"number",
        Kind::Text => b"string",
        Kind::Day => b"date",
        Kind::Period => b"time_period",
    }
}

fn nullable_word(list: &[Txt], component: &Component) -> &'static [u8]
    ensures { result.now ≡ nullable_word list.now component.now }
{
    if is_identifier(component) || is_among(&component.name, list) {
        b"false"
    } else {
        b"true"
    }
}

// Appends codes, each with a `|` before it.
fn push_barred(field: &mut Vec<u8>, codes: &[Txt]) -> Result<(), AllocError>
    ensures { OnOk result (field.new.items ≡ field.old.items ++ flat_map barred codes.now) }
{
    for code in codes {
        field.push(b'|')?;
        field.extend_from_slice(code.as_str().as_bytes())?;
    }
    Ok(())
}

// Codes with a `|` between them.
fn joined(alloc: Global, codes: &[Txt]) -> Result<Vec<u8>, AllocError>
    ensures { IfOk result (λ v. v.items ≡ joined codes.now) }
{
    let mut field = Vec::new(alloc);
    match codes {
        [] => Ok(field),
        [first, rest @ ..] => {
            field.extend_from_slice(first.as_str().as_bytes())?;
            push_barred(&mut field, rest)?;
            Ok(field)
        }
    }
}

fn codes_field(alloc: Global, component: &Component) -> Result<Vec<u8>, AllocError>
    ensures { IfOk result (λ v. v.items ≡ codes_field component.now.codes) }
{
    match &component.codes {
        None => Ok(Vec::new(alloc)),
        Some(codes) => joined(alloc, codes.as_slice()),
    }
}

// Adds fields to an empty record.
fn push_fields(record: &mut ByteRecord, fields: &[&[u8]]) -> Result<(), AllocError>
    requires none { fields_of record.old ≡ [] }
    requires whole { partial_of record.old ≡ [] }
    ensures { OnOk result (fields_of record.new ≡ slices_shown fields.now) }
{
    for field in fields {
        record.push_field(*field)?;
    }
    Ok(())
}

// Writes a record of these fields.
fn write_fields(alloc: Global, writer: &mut RowWriter, fields: &[&[u8]]) -> Result<(), AllocError>
    ensures { OnOk result (writer.new ≡ writer.old ++ row_text default_writer (slices_shown fields.now)) }
{
    let mut record = ByteRecord::new(alloc);
    push_fields(&mut record, fields)?;
    writer.write(&record)
}

fn write_profile(alloc: Global, writer: &mut RowWriter, profile: &Profile) -> Result<(), AllocError>
    ensures { OnOk result (writer.new ≡ writer.old ++ row_text default_writer (profile_record profile.now)) }
{
    let scale = [b'0' + profile.scale()];
    let rounding = rounding_word(profile.rounding());
    write_fields(
        alloc,
        writer,
        &[b"structures", b"2", scale.as_slice(), rounding, b"", b""],
    )
}

fn write_heading(alloc: Global, writer: &mut RowWriter) -> Result<(), AllocError>
    ensures { OnOk result (writer.new ≡ writer.old ++ row_text default_writer heading_record) }
{
    write_fields(
        alloc,
        writer,
        &[
            b"dataset",
            b"component",
            b"role",
            b"type",
            b"codes",
            b"nullable",
        ],
    )
}

// Writes the record of a component of a data set with this not-null list.
fn write_component(
    alloc: Global,
    writer: &mut RowWriter,
    dataset: &Txt,
    list: &[Txt],
    component: &Component,
) -> Result<(), AllocError>
    ensures { OnOk result (writer.new ≡ writer.old ++ row_text default_writer (component_record dataset.now list.now component.now)) }
{
    let codes = codes_field(alloc, component)?;
    let mut record = ByteRecord::new(alloc);
    record.push_field(dataset.as_str().as_bytes())?;
    record.push_field(component.name.as_str().as_bytes())?;
    record.push_field(role_word(component.role))?;
    record.push_field(kind_word(component.kind))?;
    record.push_field(codes.as_slice())?;
    record.push_field(nullable_word(list, component))?;
    writer.write(&record)
}

// Writes the records of the components of a data set with this not-null list.
fn write_components(
    alloc: Global,
    writer: &mut RowWriter,
    dataset: &Txt,
    list: &[Txt],
    components: &[Component],
) -> Result<(), AllocError>
    ensures { OnOk result (writer.new ≡ writer.old ++ flat_map (row_text default_writer) (map (component_record dataset.now list.now) components.now)) }
{
    for component in components {
        write_component(alloc, writer, dataset, list, component)?;
    }
    Ok(())
}

// Writes the records of the data sets.
fn write_sets(
    alloc: Global,
    writer: &mut RowWriter,
    structures: &Structures,
) -> Result<(), AllocError>
    ensures { OnOk result (writer.new ≡ writer.old ++ flat_map (row_text default_writer) (flat_map (set_records structures.now.not_null) structures.now.sets)) }
{
    for i in 0..structures.len() {
        let (dataset, structure) = structures.at(i);
        let list = structures.not_null(dataset);
        write_components(
            alloc,
            writer,
            dataset,
            list,
            structure.components.as_slice(),
        )?;
    }
    Ok(())
}

/// The text of version 2 that declares these structures with their not-null lists, and this profile. It fails only if
/// memory runs out.
pub fn write_structures(
    alloc: Global,
    structures: &Structures,
    profile: &Profile,
) -> Result<Vec<u8>, AllocError>
    ensures { IfOk result (λ text. text.items ≡ second_text structures.now profile.now) }
{
    let mut writer = RowWriter::new(alloc);
    write_profile(alloc, &mut writer, profile)?;
    write_heading(alloc, &mut writer)?;
    write_sets(alloc, &mut writer, structures)?;
    writer.into_bytes()
}

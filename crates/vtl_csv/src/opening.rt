// How a structures file begins.
ghost use Rattle.std.specs.Prelude.{◌≡◌, IfOk, OnOk, drop, option_map};
ghost use Rattle.vtl_csv.specs.FaultFields.{answer_of};
ghost use Rattle.vtl_csv.specs.Opening.{first_line, headers_of, is_header, opening_of, profile_in, rounding_in, scale_in, second_of, settings_in};

use crate::declarations::{is_heading, is_text, read_declaration};
use crate::fields::Fields;
use crate::records::RecordReader;
use crate::structures::Fault;
use crate::version::{Opening, Version};
use std::alloc::AllocError;
use vtl_decimal::{Profile, Rounding};

// Whether a record names the fields of its version.
fn is_header(version: Version, fields: &Fields) -> bool
    ensures { result ≡ is_header version fields.now }
{
    match read_declaration(version, fields) {
        Some(line) => is_heading(line),
        None => false,
    }
}

fn scale_in(field: &[u8]) -> Option<u8>
    ensures { result ≡ scale_in field.now }
{
    match field {
        [byte] if byte.is_ascii_digit() => Some(*byte - b'0'),
        _ => None,
    }
}

fn rounding_in(field: &[u8]) -> Option<Rounding>
    ensures { result ≡ rounding_in field.now }
{
    if is_text(field, b"half_up") {
        Some(Rounding::HalfUp)
    } else if is_text(field, b"half_even") {
        Some(Rounding::HalfEven)
    } else if is_text(field, b"down") {
        Some(Rounding::Down)
    } else {
        None
    }
}

fn settings_in(scale: &[u8], rounding: &[u8]) -> Option<Profile>
    ensures { result ≡ settings_in scale.now rounding.now }
{
    let scale = scale_in(scale)?;
    let rounding = rounding_in(rounding)?;
    Profile::new(scale, rounding)
}

// The profile that the first record of version 2 declares, where a record is one.
fn profile_in(fields: &Fields) -> Option<Profile>
    ensures { result ≡ profile_in fields.now }
{
    if fields.len() != 6 {
        return None;
    }
    if is_text(fields.field(0), b"structures")
        && is_text(fields.field(1), b"2")
        && is_text(fields.field(4), b"")
        && is_text(fields.field(5), b"")
    {
        return settings_in(fields.field(2), fields.field(3));
    }
    None
}

// The line of the first record that declares a component.
pub fn first_line(version: Version) -> u64
    ensures { result ≡ first_line version }
{
    match version {
        Version::First => 2,
        Version::Second => 3,
    }
}

// Reads the header of version 2.
fn read_second<'a>(
    profile: Profile,
    reader: &mut RecordReader<'a>,
    fields: &mut Fields<'a>,
) -> Result<Result<Opening, Fault>, AllocError>
    ensures opening { IfOk result (λ r. answer_of r ≡ second_of profile reader.old) }
    ensures rest { IfOk result (λ r. OnOk r (reader.new ≡ drop 1 reader.old)) }
{
    if reader.next(fields)? && is_header(Version::Second, fields) {
        return Ok(Ok(Opening {
            version: Version::Second,
            profile: Some(profile),
        }));
    }
    Ok(Err(Fault { line: 2, rule: 1 }))
}

/// Reads the records before those that declare components, and answers how the file begins, or what is wrong with them.
pub fn read_opening<'a>(
    reader: &mut RecordReader<'a>,
    fields: &mut Fields<'a>,
) -> Result<Result<Opening, Fault>, AllocError>
    ensures opening { IfOk result (λ r. answer_of r ≡ opening_of reader.old) }
    ensures rest { IfOk result (λ r. IfOk r (λ o. reader.new ≡ drop (headers_of o.version) reader.old)) }
{
    if !reader.next(fields)? {
        return Ok(Err(Fault { line: 1, rule: 1 }));
    }
    if is_header(Version::First, fields) {
        return Ok(Ok(Opening {
            version: Version::First,
            profile: None,
        }));
    }
    match profile_in(fields) {
        Some(profile) => read_second(profile, reader, fields),
        None => Ok(Err(Fault { line: 1, rule: 1 })),
    }
}

// Reads the next record, if there is one.
fn skip_record<'a>(reader: &mut RecordReader<'a>, fields: &mut Fields<'a>) -> Result<(), AllocError>
    ensures { OnOk result (reader.new ≡ drop 1 reader.old) }
{
    reader.next(fields)?;
    Ok(())
}

/// Reads the records before those that declare components, in a file of this version.
pub fn skip_opening<'a>(
    version: Version,
    reader: &mut RecordReader<'a>,
    fields: &mut Fields<'a>,
) -> Result<(), AllocError>
    ensures { OnOk result (reader.new ≡ drop (headers_of version) reader.old) }
{
    skip_record(reader, fields)?;
    match version {
        Version::First => Ok(()),
        Version::Second => skip_record(reader, fields),
    }
}

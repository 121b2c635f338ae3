// What a record of a structures file declares.
ghost use Rattle.std.specs.Prelude.{true, false, ◌≡◌, ◌<◌, ◌≤◌, ℕ, List as Items, [], ◌∷◌, IfOk, IfSome, OnOk, chars, codes, length, nat_le, option_map};
ghost use Rattle.std.specs.Bool.{OnTrue};
ghost use Rattle.std.specs.List.{list_any, position_or_len};
ghost use Rattle.std.specs.Option.{option_map_or};
ghost use Rattle.vtl_lists.specs.Each.{each_some};
ghost use Rattle.vtl_text.specs.Words.{is_component_name, is_name};
ghost use Rattle.vtl_tree.specs.Structure.{names_of, same_name};
ghost use Rattle.vtl_tree.specs.Structures.{Fits, components_of, is_filled, is_string_identifier};
ghost use Rattle.vtl_csv.specs.DeclarationFields.{declaration_fields};
ghost use Rattle.vtl_csv.specs.Declarations.{Declaration, code_in, codes_in, codes_of, component_in, dataset_in, declaration_of, declared_by, has_component, is_bar, is_full, is_heading, is_identifier_role, kind_in, listed_by, most_in, of_five, of_six, parts, record_of, role_in, says_not_null, says_null, text_in, with_new};

use crate::fields::Fields;
use crate::version::Version;
use std::alloc::{AllocError, Global};
use std::str;
use vtl_cell::Kind;
use vtl_text::{Shared, Txt, are_distinct, is_component_name, is_name};
use vtl_tree::{Component, MAX_COMPONENTS, Role, Structures};

/// The most components of a data set in version 1.
pub const MOST_IN_FIRST: usize = 64;

// The fields of a record, as written in its text; the last is there in version 2.
#[derive(Clone, Copy)]
pub struct Declaration<'a> {
    dataset: &'a [u8],
    component: &'a [u8],
    role: &'a [u8],
    kind: &'a [u8],
    code_list: &'a [u8],
    nullable: Option<&'a [u8]>,
}

/// A component that a record declares, its data set, and whether its name stands on the not-null list.
pub struct NewComponent {
    pub dataset: Txt,
    pub component: Component,
    pub is_listed: bool,
}

// Written out, so that a proof above sees one call and not the drop of each part.
impl Drop for NewComponent {
    fn drop(self) {
        let NewComponent {
            dataset: _dataset,
            component: _component,
            is_listed: _is_listed,
        } = self;
    }
}

impl NewComponent {
    /// Adds the component, which fits its data set, and its name to the not-null list of that where it stands on it. It
    /// fails only if memory runs out.
    pub fn add_to(self, structures: &mut Structures) -> Result<(), AllocError>
        requires fits { Fits self.component (components_of self.dataset structures.old.sets) }
        requires value { OnTrue self.is_listed (is_identifier_role self.component.role ≡ false) }
        ensures { OnOk result (structures.new ≡ with_new self structures.old) }
    {
        let NewComponent {
            dataset,
            component,
            is_listed,
        } = self;
        if is_listed {
            structures.add_not_null(dataset, component)
        } else {
            structures.add(dataset, component)
        }
    }
}

pub(crate) fn is_text(field: &[u8], text: &[u8]) -> bool
    ensures { result ≡ same_name field.now text.now }
{
    field == text
}

// The fields of a record, if there are five.
fn five_fields<'a>(fields: &'a Fields) -> Option<Declaration<'a>>
    ensures { option_map declaration_fields result ≡ of_five fields.now }
{
    if fields.len() != 5 {
        return None;
    }
    Some(Declaration {
        dataset: fields.field(0),
        component: fields.field(1),
        role: fields.field(2),
        kind: fields.field(3),
        code_list: fields.field(4),
        nullable: None,
    })
}

// The fields of a record, if there are six.
fn six_fields<'a>(fields: &'a Fields) -> Option<Declaration<'a>>
    ensures { option_map declaration_fields result ≡ of_six fields.now }
{
    if fields.len() != 6 {
        return None;
    }
    Some(Declaration {
        dataset: fields.field(0),
        component: fields.field(1),
        role: fields.field(2),
        kind: fields.field(3),
        code_list: fields.field(4),
        nullable: Some(fields.field(5)),
    })
}

/// The fields of a record, if there are as many as its version asks for.
pub fn read_declaration<'a>(version: Version, fields: &'a Fields) -> Option<Declaration<'a>>
    ensures { option_map declaration_fields result ≡ declaration_of version fields.now }
{
    match version {
        Version::First => five_fields(fields),
        Version::Second => six_fields(fields),
    }
}

// Whether the sixth field, where there is one, names what it says.
fn names_nullable(nullable: Option<&[u8]>) -> bool
    ensures { result ≡ option_map_or (λ f. same_name f.now (codes "nullable")) nullable.entry true }
{
    match nullable {
        Some(field) => is_text(field, b"nullable"),
        None => true,
    }
}

/// Whether the fields of a record name what they say.
pub fn is_heading(line: Declaration<'_>) -> bool
    ensures { result ≡ is_heading (declaration_fields line.entry) }
{
    is_text(line.dataset, b"dataset")
        && is_text(line.component, b"component")
        && is_text(line.role, b"role")
        && is_text(line.kind, b"type")
        && is_text(line.code_list, b"codes")
        && names_nullable(line.nullable)
}

// The text that a field is.
fn text_in(field: &[u8]) -> Option<&str>
    ensures { option_map (λ t. chars t.now) result ≡ text_in field.now }
{
    match str::from_utf8(field) {
        Ok(text) => Some(text),
        Err(_) => None,
    }
}

// The name of a data set that a field is.
fn dataset_in(field: &[u8]) -> Option<&str>
    ensures { option_map (λ t. chars t.now) result ≡ dataset_in field.now }
{
    match text_in(field) {
        Some(text) if is_name(text) => Some(text),
        _ => None,
    }
}

// The name of a component that a field is.
fn component_in(field: &[u8]) -> Option<&str>
    ensures { option_map (λ t. chars t.now) result ≡ component_in field.now }
{
    match text_in(field) {
        Some(text) if is_component_name(text) => Some(text),
        _ => None,
    }
}

/// The name of the data set that a record speaks of.
pub fn data_set_name(line: Declaration<'_>) -> Option<&str>
    ensures { option_map (λ t. chars t.now) result ≡ dataset_in line.entry.dataset.now }
{
    dataset_in(line.dataset)
}

fn role_in(field: &[u8]) -> Option<Role>
    ensures { result ≡ role_in field.now }
{
    if is_text(field, b"identifier") {
        Some(Role::Identifier)
    } else if is_text(field, b"measure") {
        Some(Role::Measure)
    } else if is_text(field, b"attribute") {
        Some(Role::Attribute)
    } else {
        None
    }
}

fn kind_in(field: &[u8]) -> Option<Kind>
    ensures { result ≡ kind_in field.now }
{
    if is_text(field, b"integer") {
        Some(Kind::Int)
    } else if is_text(field, b"number") {
        Some(Kind::Num)
    } else if is_text(field, b"string") {
        Some(Kind::Text)
    } else if is_text(field, b"boolean") {
        Some(Kind::Bool)
    } else if is_text(field, b"date") {
        Some(Kind::Day)
    } else if is_text(field, b"time_period") {
        Some(Kind::Period)
    } else {
        None
    }
}

// The code that a part of a list is.
fn code_in(alloc: Global, part: &[u8]) -> Result<Option<Txt>, AllocError>
    ensures { IfOk result (λ o. o ≡ code_in part.now) }
{
    match text_in(part) {
        Some(text) if vtl_text::length(text) != 0 => Ok(Some(Txt::new(alloc, text)?)),
        _ => Ok(None),
    }
}

// The place of the first `|`, or the end.
fn first_bar(list: &[u8]) -> usize
    ensures place { result ≡ position_or_len is_bar list.now }
    ensures within { result ≤ length list.now }
{
    for i in 0..list.len() {
        if list[i] == b'|' {
            return i;
        }
    }
    list.len()
}

// The first part of a list, and the list of the others, if there are any.
fn first_part(list: &[u8]) -> (&[u8], Option<&[u8]>)
    ensures first { parts list.now ≡ result.0.now ∷ option_map_or (λ others. parts others.now) result.1 [] }
    ensures shorter { IfSome result.1 (λ others. length others.now < length list.now) }
{
    let (part, rest) = list.split_at(first_bar(list));
    match rest {
        [_, others @ ..] => (part, Some(others)),
        [] => (part, None),
    }
}

// The codes that the parts of a list are.
fn code_texts(alloc: Global, list: &[u8]) -> Result<Option<Vec<Txt>>, AllocError>
    ensures { IfOk result (λ o. option_map (λ v. v.items) o ≡ each_some code_in (parts list.now)) }
{
    let mut codes = Vec::new(alloc);
    let mut rest = list;
    loop {
        let (part, others) = first_part(rest);
        match code_in(alloc, part)? {
            Some(code) => codes.push(code)?,
            None => return Ok(None),
        }
        match others {
            Some(others) => rest = others,
            None => return Ok(Some(codes)),
        }
    }
}

// The codes of a list.
fn codes_in(alloc: Global, list: &[u8]) -> Result<Option<Shared<Txt>>, AllocError>
    ensures { IfOk result (λ o. o ≡ codes_in list.now) }
{
    let Some(codes) = code_texts(alloc, list)? else {
        return Ok(None);
    };
    if !are_distinct(alloc, &codes)? {
        return Ok(None);
    }
    Ok(Some(Shared::of(codes)?))
}

fn is_string_identifier(role: Role, kind: Kind) -> bool
    ensures { result ≡ is_string_identifier role kind }
{
    match (role, kind) {
        (Role::Identifier, Kind::Text) => true,
        _ => false,
    }
}

// The codes of a component with this role and kind; the inner none stands for an empty field.
fn codes_of(
    alloc: Global,
    role: Role,
    kind: Kind,
    list: &[u8],
) -> Result<Option<Option<Shared<Txt>>>, AllocError>
    ensures { IfOk result (λ o. o ≡ codes_of role kind list.now) }
{
    if list.is_empty() {
        return Ok(Some(None));
    }
    if !is_string_identifier(role, kind) {
        return Ok(None);
    }
    match codes_in(alloc, list)? {
        Some(codes) => Ok(Some(Some(codes))),
        None => Ok(None),
    }
}

// The components that a data set has.
pub fn components<'a>(structures: &'a Structures, dataset: &Txt) -> &'a [Component]
    ensures { result.now ≡ components_of dataset.now structures.now.sets }
{
    match structures.get(dataset) {
        Some(structure) => structure.components.as_slice(),
        None => &[],
    }
}

fn has_name(components: &[Component], name: &Txt) -> bool
    ensures { result ≡ list_any (same_name name.now) (names_of components.now) }
{
    for component in components {
        if *name == component.name {
            return true;
        }
    }
    false
}

// The most components that a data set may have.
fn most_in(version: Version) -> usize
    ensures { result ≡ most_in version }
{
    match version {
        Version::First => MOST_IN_FIRST,
        Version::Second => MAX_COMPONENTS,
    }
}

fn is_identifier_role(role: Role) -> bool
    ensures { result ≡ is_identifier_role role }
{
    match role {
        Role::Identifier => true,
        Role::Measure | Role::Attribute => false,
    }
}

// Whether a component of this role stands on the not-null list, by the field `nullable` where there is one; None where
// the field is not lawful there.
fn listed_by(role: Role, nullable: Option<&[u8]>) -> Option<bool>
    ensures { result ≡ listed_by role (option_map (λ f. f.now) nullable.entry) }
{
    let Some(field) = nullable else {
        return Some(false);
    };
    if is_text(field, b"false") {
        return Some(!is_identifier_role(role));
    }
    if is_text(field, b"true") && !is_identifier_role(role) {
        return Some(false);
    }
    None
}

// The component that a record declares, or the first rule that it breaks.
fn declared(
    alloc: Global,
    version: Version,
    structures: &Structures,
    line: Declaration<'_>,
) -> Result<Result<NewComponent, u8>, AllocError>
    ensures { IfOk result (λ r. r ≡ declared_by version structures.now.sets (declaration_fields line.entry)) }
{
    let Some(dataset) = dataset_in(line.dataset) else {
        return Ok(Err(3));
    };
    let Some(name) = component_in(line.component) else {
        return Ok(Err(4));
    };
    let Some(role) = role_in(line.role) else {
        return Ok(Err(5));
    };
    let Some(kind) = kind_in(line.kind) else {
        return Ok(Err(6));
    };
    let dataset = Txt::new(alloc, dataset)?;
    let name = Txt::new(alloc, name)?;
    let before = components(structures, &dataset);
    if has_name(before, &name) {
        return Ok(Err(7));
    }
    let Some(codes) = codes_of(alloc, role, kind, line.code_list)? else {
        return Ok(Err(8));
    };
    if before.len() >= most_in(version) {
        return Ok(Err(9));
    }
    let Some(is_listed) = listed_by(role, line.nullable) else {
        return Ok(Err(11));
    };
    let component = Component {
        name,
        role,
        kind,
        codes,
    };
    Ok(Ok(NewComponent {
        dataset,
        component,
        is_listed,
    }))
}

/// The component that a record declares, or the first rule that the record breaks.
pub fn component(
    alloc: Global,
    version: Version,
    structures: &Structures,
    fields: &Fields,
) -> Result<Result<NewComponent, u8>, AllocError>
    ensures { IfOk result (λ r. r ≡ record_of version structures.now.sets fields.now) }
{
    match read_declaration(version, fields) {
        Some(line) => declared(alloc, version, structures, line),
        None => Ok(Err(2)),
    }
}

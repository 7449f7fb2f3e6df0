//! The table of a checker of types: which choices of a type a document may leave both viable, for a
//! person who reads it.
ghost use Rattle.std.specs.Prelude.{◌≡◌, ◌<◌, length};
ghost use Rattle.facet_solver.specs.build.Build.{build_with};
ghost use Rattle.facet_solver.specs.Representation.{asked_view};
ghost use Rattle.facet_solver_uses.specs.AmbiguityTable.{GivesTable};

use crate::ambiguous_pairs::{AmbiguousPair, ambiguous_pairs};
use facet_solver::{
    EnumRepr, FieldCategory, FieldKey, Format, Resolution, Schema, SchemaError, ShapeId, Shapes,
    Steps,
};
use std::alloc::{AllocError, Global};

/// The head of the table.
const HEAD: &str =
    "| First | Second | Keys that fit both | Only the first has | Only the second has |\n\
                    |---|---|---|---|---|";

/// Why a type has no table.
#[derive(Drop)]
pub enum NoTable<'c> {
    /// It has more choices than asked for, and so many; `None` where these are 2^64 or more.
    TooMany(Option<u64>),
    /// It has no schema: a duplicate key, or out of memory.
    Schema(SchemaError<'c>),
}

impl<'c> From<SchemaError<'c>> for NoTable<'c> {
    ghost use Rattle.facet_solver_uses.specs.declared.ambiguity_table.NoTable.TheVariants.{Schema};

    ghost from_gives = { λ error e. e ≡ Schema error };

    fn from(error: SchemaError<'c>) -> NoTable<'c> {
        NoTable::Schema(error)
    }
}

impl<'c> From<AllocError> for NoTable<'c> {
    ghost use Rattle.facet_solver.specs.declared.SchemaError.TheVariants.{OutOfMemory};
    ghost use Rattle.facet_solver_uses.specs.declared.ambiguity_table.NoTable.TheVariants.{Schema};

    ghost from_gives = { λ _ e. e ≡ Schema OutOfMemory };

    fn from(_refused: AllocError) -> NoTable<'c> {
        NoTable::Schema(SchemaError::OutOfMemory)
    }
}

/// The table of a type's ambiguous pairs: a row for each, with keys that fit both, and the names
/// that tell the two apart.
///
/// The representation is that of all flattened enums; `None` leaves it to each enum's own
/// attributes. A key in a category has its word before it, as `attribute id`; a key that is a name
/// alone means a member, or else an element. The rows stand in the order of `ambiguous_pairs`.
///
/// Errors: `TooMany` where there are more choices than `most`, with how many; no schema is then
/// built. `Schema` for a duplicate key, or out of memory.
///
/// The choices are counted first, which takes no longer than to read the catalogue. Then the time
/// is that of the build and of `ambiguous_pairs`.
pub fn ambiguity_table<'c>(
    alloc: Global,
    shapes: &'c Shapes,
    root: ShapeId,
    representation: Option<EnumRepr<'c>>,
    format: Format,
    most: u64,
) -> Result<String, NoTable<'c>>
    requires { root < length shapes.now }
    ensures { GivesTable
        (build_with shapes.now (asked_view representation.entry) format) root most result }
{
    match Schema::resolution_count(alloc, shapes, root, representation)? {
        Some(count) if count <= most => {}
        count => return Err(NoTable::TooMany(count)),
    }
    let steps = &mut Steps::new();
    let schema = Schema::build_counted(alloc, shapes, root, representation, format, steps)?;
    let pairs = ambiguous_pairs(alloc, &schema)?;
    Ok(table(alloc, schema.resolutions(), &pairs)?)
}

/// The table of some pairs.
fn table(
    alloc: Global,
    resolutions: &[Resolution<'_>],
    pairs: &[AmbiguousPair<'_>],
) -> Result<String, AllocError> {
    let mut text = String::from_str(alloc, HEAD)?;
    for pair in pairs {
        text.push_str("\n| ")?;
        push_description(alloc, resolutions.get(pair.first), &mut text)?;
        push_description(alloc, resolutions.get(pair.second), &mut text)?;
        push_keys(&pair.keys, &mut text)?;
        push_names(&pair.only_first, &mut text)?;
        text.push_str(" | ")?;
        push_names(&pair.only_second, &mut text)?;
        text.push_str(" |")?;
    }
    Ok(text)
}

fn push_description(
    alloc: Global,
    resolution: Option<&Resolution<'_>>,
    text: &mut String,
) -> Result<(), AllocError> {
    if let Some(resolution) = resolution {
        let description = resolution.describe(alloc)?;
        text.push_str(description.as_str())?;
    }
    text.push_str(" | ")
}

fn push_keys(keys: &[FieldKey<'_>], text: &mut String) -> Result<(), AllocError> {
    let mut between = "";
    for key in keys {
        text.push_str(between)?;
        push_key(key, text)?;
        between = ", ";
    }
    text.push_str(" | ")
}

/// The word of a key's category, where it has one, and its name, where it has one.
fn push_key(key: &FieldKey<'_>, text: &mut String) -> Result<(), AllocError> {
    let word = category_word(key);
    text.push_str(word)?;
    if !word.is_empty() && !key.name().is_empty() {
        text.push_str(" ")?;
    }
    text.push_str(key.name())
}

fn category_word(key: &FieldKey<'_>) -> &'static str {
    match key {
        FieldKey::Flat(_) | FieldKey::Dom(FieldCategory::Flat, _) => "",
        FieldKey::Dom(FieldCategory::Attribute, _) => "attribute",
        FieldKey::Dom(FieldCategory::Element, _) => "element",
        FieldKey::Dom(FieldCategory::Text, _) => "text",
        FieldKey::Dom(FieldCategory::Tag, _) => "tag",
        FieldKey::Dom(FieldCategory::Elements, _) => "elements",
    }
}

fn push_names(names: &[&str], text: &mut String) -> Result<(), AllocError> {
    let mut between = "";
    for name in names {
        text.push_str(between)?;
        text.push_str(name)?;
        between = ", ";
    }
    Ok(())
}

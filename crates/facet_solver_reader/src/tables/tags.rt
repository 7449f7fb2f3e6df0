//! Which variant of an enum the text of its tag names.
ghost use Rattle.std.specs.Prelude.{◌≡◌, ℕ, Contains, IfOk, IfSome, MatchOption, option_copied};
ghost use Rattle.facet_solver_reader.specs.Nodes.{AreByName, entries};
ghost use Rattle.facet_solver_reader.specs.Tags.{AreTags, HoldsVariants, IsTagTable, tag_of};
ghost use Rattle.facet_solver_shape.specs.Representation.{repr_view};

use crate::nodes::{find_by_name, sort_by_name};
use crate::parts::repr_at;
use crate::variants::variants_at;
use facet_solver_shape::{EnumRepr, ShapeId, Shapes, Variant};
use std::alloc::{AllocError, Global};

/// The tag of an enum, and the texts by which it names the variants.
#[derive(Debug, Drop)]
pub(crate) struct TagTable<'c> {
    /// The name of the member that holds the text.
    pub(crate) name: &'c str,
    /// The texts, sorted, each with the index of its variant.
    by_text: Vec<(&'c str, usize)>,
}

/// The tags of a catalogue's enums, by the indices of their shapes. They end with the last one.
pub(super) fn tags<'c>(
    alloc: Global,
    shapes: &'c Shapes,
) -> Result<Vec<Option<TagTable<'c>>>, AllocError>
    ensures { IfOk result (λ tags. AreTags shapes.now tags.items) }
{
    let len = tagged_len(shapes);
    let mut tags = Vec::with_capacity(alloc, len)?;
    for index in 0..len {
        tags.push(TagTable::new(alloc, shapes, ShapeId::new(index))?)?;
    }
    Ok(tags)
}

/// How many shapes there are up to the last one that has a tag.
fn tagged_len(shapes: &Shapes) -> usize {
    let mut len = 0;
    for index in 0..shapes.len() {
        if tag_of(repr_at(shapes, ShapeId::new(index))).is_some() {
            len = index + 1;
        }
    }
    len
}

impl<'c> TagTable<'c> {
    /// The tag of the enum at an index; `None` where it has none, or two variants have one text.
    fn new(
        alloc: Global,
        shapes: &'c Shapes,
        id: ShapeId,
    ) -> Result<Option<TagTable<'c>>, AllocError>
        ensures { IfOk result (λ tag. IfSome tag (IsTagTable shapes.now id)) }
    {
        let Some(name) = tag_of(repr_at(shapes, id)) else {
            return Ok(None);
        };
        let mut by_text = texts_of(alloc, variants_at(shapes, id))?;
        match sort_by_name(&mut by_text) {
            Some(_) => Ok(None),
            None => Ok(Some(TagTable { name, by_text })),
        }
    }

    /// The index of the variant that a text names.
    pub(crate) fn variant(&self, text: &str) -> Option<usize>
        requires { AreByName self.now.by_text.items }
        ensures { MatchOption result
            ((k : ℕ) → ¬ Contains (entries self.now.by_text.items) (text.now, k))
            (λ k. Contains (entries self.now.by_text.items) (text.now, k)) }
    {
        find_by_name(&self.by_text, text)
    }
}

/// The name of the member that tells the variants of a representation apart, if one does.
fn tag_of(repr: EnumRepr<'_>) -> Option<&str>
    ensures { option_copied result ≡ tag_of (repr_view repr.entry) }
{
    match repr {
        EnumRepr::InternallyTagged { tag } | EnumRepr::AdjacentlyTagged { tag, .. } => Some(tag),
        EnumRepr::Flattened | EnumRepr::ExternallyTagged => None,
    }
}

/// The texts of variants, each with the index of its variant.
fn texts_of(alloc: Global, variants: &[Variant]) -> Result<Vec<(&str, usize)>, AllocError>
    ensures { IfOk result (λ texts. HoldsVariants (entries texts.items) variants.now) }
{
    let mut texts = Vec::with_capacity(alloc, variants.len())?;
    for (k, variant) in variants.iter().enumerate() {
        texts.push((variant.name.as_str(), k))?;
    }
    Ok(texts)
}

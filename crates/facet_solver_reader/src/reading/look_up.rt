//! What a caller looks up in a reading.
ghost use Rattle.std.specs.Prelude.{◌≡◌, map};
ghost use Rattle.std.specs.Option.{option_map};
ghost use Rattle.facet_solver_shape.specs.Paths.{segment_of};
ghost use Rattle.facet_solver_reader.specs.LookUps as spec;
ghost use Rattle.facet_solver_reader.specs.Told.{names_view};

use super::path_text::is_text_of;
use super::{FieldPlace, Reading, ReadingKind, VariantName};
use facet_solver_shape::{PathSegment, VariantSelection};

impl<'c, 'v, 'd> Reading<'c, 'v, 'd> {
    /// The value of the first field whose path prints as the text, as `source.source::Http.url`;
    /// `None` where none does, and of what is no object. A field that the object lacks has a value
    /// too, of the kind `Absent`.
    ///
    /// Of a server with flattened TLS, `value_at("tls.certificate")` is that of its certificate.
    pub fn value_at(&self, path: &str) -> Option<&Reading<'c, 'v, 'd>>
        ensures { option_map (λ value. value.now) result ≡ spec.value_at self.now path.now }
    {
        let ReadingKind::Object { object, values, .. } = &self.kind else {
            return None;
        };
        let mut placed = object.fields.iter().zip(values);
        let (_, value) = placed.find(|(field, _)| is_text_of(field.path.segments(), path))?;
        Some(value)
    }

    /// The value of the only field that has the name in the document; `None` where none or several
    /// have it, and of what is no object.
    ///
    /// Of a server with flattened TLS, `value_of("certificate")` is that of its certificate.
    pub fn value_of(&self, name: &str) -> Option<&Reading<'c, 'v, 'd>>
        ensures { option_map (λ value. value.now) result ≡ spec.value_of self.now name.now }
    {
        let ReadingKind::Object { object, values, .. } = &self.kind else {
            return None;
        };
        let fields = &object.fields;
        if fields.iter().filter(|field| field.name == name).count() != 1 {
            return None;
        }
        let (_, value) = fields
            .iter()
            .zip(values)
            .find(|(field, _)| field.name == name)?;
        Some(value)
    }

    /// The variant that is first selected at the path that prints as the text; `None` where none
    /// is. For the empty text it is the outermost variant of the value, of whatever kind: the first
    /// of its `variants`, or else the one that is selected at the path of the object, `<root>`.
    ///
    /// Of an event with a flattened source, `variant_at("source")` may be `Source::Http`.
    pub fn variant_at(&self, path: &str) -> Option<VariantName<'c>>
        ensures { option_map names_view result ≡ spec.variant_at self.now path.now }
    {
        if !path.is_empty() {
            return selected_at(&self.kind, path);
        }
        match self.variants.first() {
            Some(variant) => Some(*variant),
            None => selected_at(&self.kind, "<root>"),
        }
    }

    /// Whether the object has a block whose path prints as the text: a variant is selected there,
    /// or the path of a field goes on from there. It is `false` of what is no object.
    ///
    /// Of a job with flattened retries that are optional, `has_block("retry")` tells whether they
    /// are there.
    pub fn has_block(&self, path: &str) -> bool
        ensures { result ≡ spec.has_block self.now path.now }
    {
        let is_selected = selections_of(&self.kind)
            .iter()
            .any(|selection| is_text_of(selection.path.segments(), path));
        is_selected
            || fields_of(&self.kind)
                .iter()
                .any(|field| goes_on_from(field.path.segments(), path))
    }
}

/// The variant that is first selected at the path that prints as the text; of what is no object,
/// none.
fn selected_at<'c>(kind: &ReadingKind<'c, '_, '_>, path: &str) -> Option<VariantName<'c>>
    ensures { option_map names_view result ≡ spec.selected_at kind.now path.now }
{
    let selection = selections_of(kind)
        .iter()
        .find(|selection| is_text_of(selection.path.segments(), path))?;
    Some(VariantName {
        enum_name: selection.enum_name,
        variant_name: selection.variant_name,
    })
}

/// Whether a path goes on from the one that prints as the text: `server.port` does from `server`.
fn goes_on_from(path: &[PathSegment<'_>], text: &str) -> bool
    ensures { result ≡ spec.goes_on_from text.now (map segment_of path.now) }
{
    for count in 0..path.len() {
        if is_text_of(&path[..count], text) {
            return true;
        }
    }
    false
}

/// Where the fields of an object belong; of what is no object, none.
fn fields_of<'r, 'c>(kind: &'r ReadingKind<'c, '_, '_>) -> &'r [FieldPlace<'c>]
    ensures { result.now ≡ spec.fields_of kind.now }
{
    match kind {
        ReadingKind::Object { object, .. } => &object.fields,
        _ => &[],
    }
}

/// The variants that are selected in an object; of what is no object, none.
fn selections_of<'r, 'c>(kind: &'r ReadingKind<'c, '_, '_>) -> &'r [VariantSelection<'c>]
    ensures { result.now ≡ spec.selections_of kind.now }
{
    match kind {
        ReadingKind::Object { object, .. } => &object.selections,
        _ => &[],
    }
}

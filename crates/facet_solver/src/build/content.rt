//! The content of a variant.
ghost use Rattle.std.specs.Prelude.{◌≡◌, ◌∷◌, [], MatchOption};
ghost use Rattle.std.specs.Option.{option_copied};
ghost use Rattle.facet_solver_shape.specs.Catalogues.{NamesEarlier};
ghost use Rattle.facet_solver.specs.build.Content as content;
ghost use Rattle.facet_solver.specs.build.Content.{IsNewtypeOf};

use facet_solver_shape::{Field, ShapeId, ShapeKind, Shapes, Variant};

/// The struct behind a single field `0`.
pub(crate) fn newtype_struct(shapes: &Shapes, fields: &[Field]) -> Option<ShapeId>
    requires { NamesEarlier shapes.now }
    ensures { let found = content.newtype_fields shapes.now fields.now in
        MatchOption result (found ≡ None) (IsNewtypeOf shapes.now fields.now) }
{
    match fields {
        [field] => newtype_of(shapes, field),
        _ => None,
    }
}

/// The struct behind a field that is a variant's only one, if it is named `0`.
pub(crate) fn newtype_of(shapes: &Shapes, field: &Field) -> Option<ShapeId>
    requires { NamesEarlier shapes.now }
    ensures { let found = content.newtype_fields shapes.now (field.now ∷ []) in
        MatchOption result (found ≡ None) (IsNewtypeOf shapes.now (field.now ∷ [])) }
{
    if field.name.as_str() != "0" {
        return None;
    }
    let id = shapes.effective(field.shape);
    match shapes.get(id)?.kind {
        ShapeKind::Struct { .. } => Some(id),
        _ => None,
    }
}

/// The fields of that struct.
pub(crate) fn newtype_fields<'c>(shapes: &'c Shapes, fields: &'c [Field]) -> Option<&'c [Field]>
    requires { NamesEarlier shapes.now }
    ensures { option_copied result ≡ content.newtype_fields shapes.now fields.now }
{
    match &shapes.get(newtype_struct(shapes, fields)?)?.kind {
        ShapeKind::Struct { fields, .. } => Some(fields.as_slice()),
        _ => None,
    }
}

/// The fields of a variant's content.
pub(crate) fn content_fields<'c>(shapes: &'c Shapes, variant: &'c Variant) -> &'c [Field]
    requires { NamesEarlier shapes.now }
    ensures { result.now ≡ (content.content_of shapes.now variant.now).fields }
{
    newtype_fields(shapes, variant.fields.as_slice()).unwrap_or(variant.fields.as_slice())
}

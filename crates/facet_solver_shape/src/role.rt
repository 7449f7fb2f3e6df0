//! What a field is to the fields that it stands among, by the kind of its target.
ghost use Rattle.std.specs.Prelude.{◌≡◌};
ghost use Rattle.facet_solver_shape.specs.Roles as roles;
ghost use Rattle.facet_solver_shape.specs.Roles.{role_view};

use crate::shape::{Field, Shape, ShapeId, ShapeKind, Shapes, Variant};

/// What a flattened field leads to: the inside of its shape where that is an option, else its
/// shape.
#[derive(Clone, Copy)]
pub struct Target {
    /// The shape that it leads to.
    pub shape: ShapeId,
    /// Whether the field's shape is an option.
    pub optional: bool,
}

/// What a field is to the fields that it stands among. Each role of a flattened field has the field's
/// target.
#[derive(Clone, Copy)]
pub enum Role<'c> {
    /// A field of its own.
    Regular,
    /// Flattened: the fields of a struct.
    Block(Target, &'c [Field]),
    /// Flattened: the variants of an enum.
    Alternatives(Target, &'c Shape, &'c [Variant]),
    /// Flattened: a map or dynamic value, which takes what no field takes.
    CatchAll(Target),
    /// Flattened: any other shape.
    Leaf(Target),
}

impl<'c> Role<'c> {
    /// Whether the field may be absent: its shape is an option of a struct or an enum.
    pub fn may_be_absent(&self) -> bool
        ensures { result ≡ roles.may_be_absent (role_view self.now) }
    {
        match self {
            Role::Block(target, _) | Role::Alternatives(target, _, _) => target.optional,
            Role::Regular | Role::CatchAll(_) | Role::Leaf(_) => false,
        }
    }
}

/// The target of a flattened field.
fn target_of(shapes: &Shapes, field: &Field) -> Target
    ensures { result ≡ roles.target_of shapes.now field.now }
{
    if let Some(shape) = shapes.get(field.shape)
        && let ShapeKind::Option(inside) = &shape.kind
    {
        return Target {
            shape: *inside,
            optional: true,
        };
    }
    Target {
        shape: field.shape,
        optional: false,
    }
}

/// Whether the shape at an index is an option; false where the catalogue has no shape there.
pub fn is_option(shapes: &Shapes, id: ShapeId) -> bool
    ensures { result ≡ roles.is_option shapes.now id }
{
    match shapes.get(id) {
        Some(shape) => matches!(shape.kind, ShapeKind::Option(_)),
        None => false,
    }
}

/// Whether a field that stands by itself in a document is required: it has no default, and its shape
/// is no option.
///
/// A flattened field stands by itself where its role is a leaf.
pub fn is_required(shapes: &Shapes, field: &Field) -> bool
    ensures { result ≡ roles.is_required shapes.now field.now }
{
    !field.has_default && !is_option(shapes, field.shape)
}

/// The role of a field: regular, unless it is flattened. A flattened field goes by the kind of its
/// target, and is a leaf where the catalogue has no shape there.
///
/// Whether an option is unwrapped is decided here alone.
pub fn role_of<'c>(shapes: &'c Shapes, field: &'c Field) -> Role<'c>
    ensures { role_view result ≡ roles.role_of shapes.now field.now }
{
    if !field.flattened {
        return Role::Regular;
    }
    let target = target_of(shapes, field);
    let Some(shape) = shapes.get(target.shape) else {
        return Role::Leaf(target);
    };
    match &shape.kind {
        ShapeKind::Struct { fields, .. } => Role::Block(target, fields.as_slice()),
        ShapeKind::Enum { variants } => Role::Alternatives(target, shape, variants.as_slice()),
        ShapeKind::Map(_, _) | ShapeKind::DynamicValue => Role::CatchAll(target),
        _ => Role::Leaf(target),
    }
}

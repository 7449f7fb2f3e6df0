//! From a choice to values: for each field of the resolution that was found, the member of the
//! document that stands for it.
ghost use Rattle.std.specs.Prelude.{◌≡◌, ◌↔◌, ℕ, Contains, IfOk, IsSomeAnd, IsTrue, Some, map};
ghost use Rattle.std.specs.FinMap as finite;
ghost use Rattle.std.specs.Option.{option_copied};
ghost use Rattle.facet_solver.specs.Fields.{FieldView};
ghost use Rattle.facet_solver.specs.Resolved.{field_by_key};
ghost use Rattle.facet_solver_uses.specs.ChoiceToValues.{FindsMember, FindsMembers, FindsOthers, GivesValues, HaveOneKey, TellsFirstUnknown, meant_field_at};
ghost use Rattle.facet_solver_uses.specs.KeysToChoice.{keys_of};

use crate::taken::{Taker, taker_of};
use facet_solver::{FieldInfo, FieldKey, Resolution};
use std::alloc::{AllocError, AllocFailed, Global};

/// A field, and the member that stands for it.
#[derive(Clone, Copy)]
pub struct FieldValue<'r, 'c> {
    /// The field, which has its path.
    pub field: &'r FieldInfo<'c>,
    /// The index of its member. Without one the field is absent.
    pub member: Option<usize>,
}

/// What the members of a document stand for.
#[derive(Drop)]
pub struct Values<'r, 'c> {
    /// Each field of the resolution, in key order.
    pub fields: Vec<FieldValue<'r, 'c>>,
    /// The members that are the content of an adjacently tagged enum, in the order of the document.
    pub contents: Vec<usize>,
    /// The members that a catch-all takes, in the order of the document. `taker_of` says which one.
    pub rest: Vec<usize>,
}

/// The members that no field takes.
#[derive(Drop)]
struct Others {
    contents: Vec<usize>,
    rest: Vec<usize>,
}

/// Why the members of a document don't stand for the fields of a resolution.
#[derive(Clone, Copy)]
pub enum Mismatch<'r, 'c, 'd> {
    /// The resolution does not take this member. It is the first such one.
    Unknown {
        member: usize,
        key: FieldKey<'d>,
    },
    /// Two members stand for this field: the first one, and the next.
    Repeated {
        field: &'r FieldInfo<'c>,
        first: usize,
        second: usize,
    },
    /// No member stands for this field, which is required.
    Missing(&'r FieldInfo<'c>),
    /// Out of memory.
    OutOfMemory,
}

impl<'r, 'c, 'd> From<AllocError> for Mismatch<'r, 'c, 'd> {
    ghost use Rattle.facet_solver_uses.specs.declared.choice_to_values.Mismatch.TheVariants.{OutOfMemory};

    ghost from_gives = { λ _ e. e ≡ OutOfMemory };

    fn from(_refused: AllocError) -> Mismatch<'r, 'c, 'd> {
        Mismatch::OutOfMemory
    }
}

impl<'r, 'c, 'd, T: Drop> From<AllocFailed<T>> for Mismatch<'r, 'c, 'd> {
    ghost use Rattle.facet_solver_uses.specs.declared.choice_to_values.Mismatch.TheVariants.{OutOfMemory};

    ghost from_gives = { λ _ e. e ≡ OutOfMemory };

    fn from(_refused: AllocFailed<T>) -> Mismatch<'r, 'c, 'd> {
        Mismatch::OutOfMemory
    }
}

/// The members that stand for the fields of a resolution, by the keys of all members in the order
/// of the document.
///
/// A member stands for the field that its key means (`Resolution::field_by_key`). One whose key
/// means none is content, or goes to the rest (`taker_of`). So no member is lost. Members are told
/// by their indices.
///
/// Errors: `Unknown` for the first member that the resolution does not take. Where there is none,
/// `Repeated` or `Missing` for the first field in key order that has such a fault: several members
/// stand for it, or it is required and none does. `OutOfMemory` may come before any of these.
///
/// It compares each member with each field, so it takes the product of their numbers.
pub fn choice_to_values<'r, 'c, 'd>(
    alloc: Global,
    resolution: &'r Resolution<'c>,
    keys: &[FieldKey<'d>],
) -> Result<Values<'r, 'c>, Mismatch<'r, 'c, 'd>>
    ensures values { GivesValues resolution.now (keys_of keys.now) result }
    ensures unknown { TellsFirstUnknown resolution.now (keys_of keys.now) result }
{
    let Others { contents, rest } = others_of(alloc, resolution, keys)?;
    let meant = meant_fields(alloc, resolution, keys)?;
    let fields = members_of(alloc, resolution, &meant)?;
    Ok(Values {
        fields,
        contents,
        rest,
    })
}

/// The members that no field takes. The first that nothing takes is refused.
fn others_of<'r, 'c, 'd>(
    alloc: Global,
    resolution: &Resolution<'_>,
    keys: &[FieldKey<'d>],
) -> Result<Others, Mismatch<'r, 'c, 'd>>
    ensures { FindsOthers resolution.now (keys_of keys.now) result }
{
    let mut contents = Vec::new(alloc);
    let mut rest = Vec::new(alloc);
    for (member, key) in keys.iter().enumerate() {
        match taker_of(resolution, key) {
            Some(Taker::Field(_)) => {}
            Some(Taker::Content) => contents.push(member)?,
            Some(Taker::CatchAll(_)) => rest.push(member)?,
            None => return Err(Mismatch::Unknown { member, key: *key }),
        }
    }
    Ok(Others { contents, rest })
}

/// The field that each key means.
fn meant_fields<'r, 'c>(
    alloc: Global,
    resolution: &'r Resolution<'c>,
    keys: &[FieldKey<'_>],
) -> Result<Vec<Option<&'r FieldInfo<'c>>>, AllocError>
    ensures { IfOk result (λ meant. map option_copied meant.items
        ≡ map (λ key. field_by_key key resolution.now) (keys_of keys.now)) }
{
    let mut meant = Vec::new(alloc);
    for key in keys {
        meant.push(resolution.field_by_key(key))?;
    }
    Ok(meant)
}

/// Each field of a resolution with the member that means it, by the fields that the members mean.
fn members_of<'r, 'c, 'd>(
    alloc: Global,
    resolution: &'r Resolution<'c>,
    meant: &[Option<&FieldInfo<'_>>],
) -> Result<Vec<FieldValue<'r, 'c>>, Mismatch<'r, 'c, 'd>>
    requires { (member : ℕ) (f : FieldView) → meant_field_at meant.now member ≡ Some f
        → Contains (finite.values resolution.now.fields) f }
    ensures { FindsMembers resolution.now (meant_field_at meant.now) result }
{
    let mut fields = Vec::new(alloc);
    for (_, field) in resolution.fields() {
        let member = member_of(field, meant)?;
        if field.required && member.is_none() {
            return Err(Mismatch::Missing(field));
        }
        fields.push(FieldValue { field, member })?;
    }
    Ok(fields)
}

/// The member that means a field, if there is one. A second one is refused.
fn member_of<'r, 'c, 'd>(
    field: &'r FieldInfo<'c>,
    meant: &[Option<&FieldInfo<'_>>],
) -> Result<Option<usize>, Mismatch<'r, 'c, 'd>>
    requires { (member : ℕ) (f : FieldView) → meant_field_at meant.now member ≡ Some f
        → HaveOneKey f field.now → f ≡ field.now }
    ensures { FindsMember (meant_field_at meant.now) field.now result }
{
    let mut found = None;
    for (member, other) in meant.iter().enumerate() {
        if is_of_key(*other, field) {
            if let Some(first) = found {
                return Err(Mismatch::Repeated {
                    field,
                    first,
                    second: member,
                });
            }
            found = Some(member);
        }
    }
    Ok(found)
}

/// Whether a field was found, and has the category and the name of another one. Of the fields of a
/// resolution only that one itself has both.
fn is_of_key(found: Option<&FieldInfo<'_>>, field: &FieldInfo<'_>) -> bool
    ensures { IsTrue result ↔ IsSomeAnd (option_copied found.entry) (λ f. HaveOneKey f field.now) }
{
    match found {
        Some(found) => {
            found.category == field.category && found.serialized_name == field.serialized_name
        }
        None => false,
    }
}

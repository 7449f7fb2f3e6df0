//! The members of a document.
ghost use Rattle.std.specs.Prelude.{◌≡◌, ◌++◌, ◌∷◌, [], IfOk, OnOk, map};
ghost use Rattle.serde_json.specs.View.{members_view, view};
ghost use Rattle.facet_solver.specs.Names.{names_of};
ghost use Rattle.facet_solver_program.specs.Document.{member_and_below, member_view, members_below};

use serde_json::{Map, Value};
use std::alloc::{AllocError, Global};

/// A member of a document that no list encloses.
#[derive(Drop)]
pub struct Member<'v> {
    /// The names that lead to it, its own the last.
    pub path: Vec<&'v str>,
    /// Its value.
    pub value: &'v Value,
}

/// The members of a document, in the lexicographic order of their paths.
///
/// The only error is out of memory.
pub fn members<'v>(
    alloc: Global,
    document: &'v Map<String, Value>,
) -> Result<Vec<Member<'v>>, AllocError>
    ensures { IfOk result (λ members.
        map member_view members.items ≡ members_below [] (members_view document.now.entries)) }
{
    let mut members = Vec::new(alloc);
    add_members(alloc, &[], document, &mut members)?;
    Ok(members)
}

/// Adds the members of an object at a path, and behind each those of its own value.
#[cycle(document)]
fn add_members<'v>(
    alloc: Global,
    path: &[&'v str],
    object: &'v Map<String, Value>,
    members: &mut Vec<Member<'v>>,
) -> Result<(), AllocError>
    ensures { OnOk result (map member_view members.new.items
        ≡ map member_view members.old.items
        ++ members_below (names_of path.now) (members_view object.now.entries)) }
{
    for (name, value) in object.iter() {
        add_member(alloc, path, name.as_str(), value, members)?;
    }
    Ok(())
}

/// Adds one member of an object at a path, and behind it those of its value.
#[cycle(document)]
fn add_member<'v>(
    alloc: Global,
    path: &[&'v str],
    name: &'v str,
    value: &'v Value,
    members: &mut Vec<Member<'v>>,
) -> Result<(), AllocError>
    ensures { OnOk result (map member_view members.new.items
        ≡ map member_view members.old.items
        ++ member_and_below (names_of path.now) name.now (view value.now)) }
{
    members.push(Member {
        path: with_name(alloc, path, name)?,
        value,
    })?;
    match value {
        Value::Object(object) => {
            let whole = with_name(alloc, path, name)?;
            add_members(alloc, &whole, object, members)
        }
        _ => Ok(()),
    }
}

/// A path with one more name.
fn with_name<'v>(alloc: Global, path: &[&'v str], name: &'v str) -> Result<Vec<&'v str>, AllocError>
    ensures { IfOk result (λ whole.
        names_of whole.items ≡ names_of path.now ++ name.now ∷ []) }
{
    let mut whole = Vec::from_slice(alloc, path)?;
    whole.push(name)?;
    Ok(whole)
}

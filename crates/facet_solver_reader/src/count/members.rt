//! The members of a value.
ghost use Rattle.std.specs.Prelude.{◌≡◌, map};
ghost use Rattle.facet_solver_reader.specs.Documents.{view};
ghost use Rattle.facet_solver_reader.specs.Nodes.{members_in};
ghost use Rattle.facet_solver_reader.specs.Reading.{member_view};

use crate::document::Document;

/// The members of a value: none, if it is no object.
pub(crate) fn members_of<'v, 'd>(value: &'v Document<'d>) -> &'v [(&'d str, Document<'d>)]
    ensures { map member_view result.now ≡ members_in (view value.now) }
{
    match value {
        Document::Object(members) => members.as_slice(),
        _ => &[],
    }
}

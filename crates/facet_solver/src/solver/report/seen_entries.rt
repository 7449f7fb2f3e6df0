//! The seen keys with their entries, so that a key is looked up once and not for each resolution.
ghost use Rattle.std.specs.Prelude.{◌≡◌, IfOk, map, string_bytes};
ghost use Rattle.facet_solver_shape.specs.Keys.{key_of};
ghost use Rattle.facet_solver.specs.solver.SeenEntries.{AreSeenEntries, names_without};

use crate::schema::Schema;
use crate::schema::index::entry::{Entry, holds};
use facet_solver_shape::FieldKey;
use std::alloc::{AllocError, Global};
use std::collections::BTreeSet;

/// A seen key, and its entry in the index of a schema, if a resolution has the key.
#[derive(Clone, Copy)]
pub(crate) struct SeenEntry<'s, 'c, 'a> {
    key: FieldKey<'a>,
    entry: Option<&'s Entry<'c>>,
}

/// The seen keys with their entries, in key order.
pub(crate) fn seen_entries<'s, 'c, 'a>(
    alloc: Global,
    schema: &'s Schema<'c>,
    seen: &BTreeSet<FieldKey<'a>>,
) -> Result<Vec<SeenEntry<'s, 'c, 'a>>, AllocError>
    ensures { IfOk result
        (λ entries. AreSeenEntries schema.now (map key_of seen.now.keys) entries.items) }
{
    let mut entries = Vec::new(alloc);
    for key in seen {
        entries.push(SeenEntry {
            key: *key,
            entry: schema.look_up(*key),
        })?;
    }
    Ok(entries)
}

/// The names of the keys that the resolution at an index lacks, one for each key, in order.
pub(crate) fn names_without(
    alloc: Global,
    entries: &[SeenEntry<'_, '_, '_>],
    index: usize,
) -> Result<Vec<String>, AllocError>
    ensures { IfOk result
        (λ names. map string_bytes names.items ≡ names_without index entries.now) }
{
    let mut names = Vec::new(alloc);
    for seen in entries {
        if !holds(seen.entry, index) {
            names.push(String::from_str(alloc, seen.key.name())?)?;
        }
    }
    Ok(names)
}

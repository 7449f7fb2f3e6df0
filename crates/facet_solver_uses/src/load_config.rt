//! A configuration loader: the text under a tag is the name of the variant, and a key that the
//! resolution does not take is an error.
ghost use Rattle.std.specs.Prelude.{◌≡◌, ◌++◌, ◌∷◌, [], if◌then◌else◌, IfOk, OnOk};
ghost use Rattle.std.specs.List.{list_any};
ghost use Rattle.std.specs.Option.{option_map};
ghost use Rattle.facet_solver.specs.Keys.{key_of};
ghost use Rattle.facet_solver.specs.Names.{name_eq, names_of};
ghost use Rattle.facet_solver.specs.solver.Tag.{variant_under};
ghost use Rattle.facet_solver_uses.specs.LoadConfig.{AreKnown, Loads, variants_under};
ghost use Rattle.facet_solver_uses.specs.KeysToChoice.{keys_of};
ghost use Rattle.facet_solver_uses.specs.Taken.{first_unknown};

use crate::taken::taker_of;
use facet_solver::{
    FieldKey, PathSegment, Resolution, ResolutionHandle, Schema, Solver, SolverError,
};
use std::alloc::{AllocError, Global};
use std::collections::BTreeSet;

/// Why a configuration is refused.
#[derive(Drop)]
pub enum Refused<'c, 'd> {
    /// The text names no variant under the tag. These there are, each once.
    UnknownVariant(Vec<&'c str>),
    /// The resolution that was found does not take this key. It is the first such one.
    UnknownKey(FieldKey<'d>),
    /// A field is missing, or several resolutions are viable, or out of memory.
    Solver(SolverError<'c>),
}

impl<'c, 'd> From<SolverError<'c>> for Refused<'c, 'd> {
    ghost use Rattle.facet_solver_uses.specs.declared.load_config.Refused.TheVariants.{Solver};

    ghost from_gives = { λ error e. e ≡ Solver error };

    fn from(error: SolverError<'c>) -> Refused<'c, 'd> {
        Refused::Solver(error)
    }
}

impl<'c, 'd> From<AllocError> for Refused<'c, 'd> {
    ghost use Rattle.facet_solver.specs.declared.SolverError.TheVariants.{OutOfMemory};
    ghost use Rattle.facet_solver_uses.specs.declared.load_config.Refused.TheVariants.{Solver};

    ghost from_gives = { λ _ e. e ≡ Solver OutOfMemory };

    fn from(_refused: AllocError) -> Refused<'c, 'd> {
        Refused::Solver(SolverError::OutOfMemory)
    }
}

/// The resolution that a configuration means: its tag, the text under it, and its other keys.
///
/// The text names a variant of the enum that goes by the tag (`Solver::see_tag`), whether its
/// content stands beside the tag or under a key of its own. The resolution takes each key
/// (`taker_of`), so none is passed over in silence.
///
/// Errors: `UnknownVariant` where the text names no variant under the tag. Otherwise `Solver` where
/// the tag and the keys leave not exactly one viable resolution. Otherwise `UnknownKey` for the
/// first key that the resolution does not take. Out of memory may come before any of these.
///
/// At the end each key is looked up in the resolution that was found, field by field. So beside the
/// calls of the solver it takes the product of their numbers.
pub fn load_config<'s, 'c, 'd>(
    alloc: Global,
    schema: &'s Schema<'c>,
    tag: &'d str,
    variant: &'d str,
    keys: &[FieldKey<'d>],
) -> Result<ResolutionHandle<'s, 'c>, Refused<'c, 'd>>
    ensures { Loads schema.now tag.now variant.now (keys_of keys.now) result }
{
    let mut solver = Solver::new(alloc, schema)?;
    if !solver.see_tag(alloc, tag, variant)? {
        return Err(Refused::UnknownVariant(variants_under(alloc, &solver, tag)?));
    }
    for key in keys {
        solver.see_key(alloc, *key)?;
    }
    let handle = solver.finish(alloc)?;
    match first_unknown(handle.resolution(), keys) {
        Some(key) => Err(Refused::UnknownKey(key)),
        None => Ok(handle),
    }
}

/// The variants that the candidates have under a tag, each once, in the order of the candidates.
fn variants_under<'c>(
    alloc: Global,
    solver: &Solver<'_, 'c, '_>,
    tag: &str,
) -> Result<Vec<&'c str>, AllocError>
    ensures { IfOk result (λ names. names_of names.items ≡ variants_under tag.now solver.now) }
{
    let handles = solver.candidates(alloc)?;
    let mut names = Vec::new(alloc);
    let mut known = BTreeSet::new(alloc);
    for handle in &handles {
        if let Some(variant) = variant_under(handle.resolution(), tag) {
            push_new(&mut names, &mut known, variant)?;
        }
    }
    Ok(names)
}

/// The variant that a resolution has under a tag: the path of the tag's field ends in it.
fn variant_under<'c>(resolution: &Resolution<'c>, tag: &str) -> Option<&'c str>
    ensures { option_map (λ variant. variant.now) result ≡ variant_under tag.now resolution.now }
{
    let field = resolution.field_by_key(&FieldKey::flat(tag))?;
    match field.path.last()? {
        PathSegment::Variant(_, variant) => Some(*variant),
        PathSegment::Field(_) => None,
    }
}

/// Adds a name that is not there yet. The names that are there are known as a set too, so that many
/// are not gone through for each.
fn push_new<'c>(
    names: &mut Vec<&'c str>,
    known: &mut BTreeSet<&'c str>,
    name: &'c str,
) -> Result<(), AllocError>
    requires { AreKnown names.old.items known.old }
    ensures known { OnOk result (AreKnown names.new.items known.new) }
    ensures names { OnOk result (names.new.items
        ≡ (if list_any (λ other. name_eq other.now name.now) names.old.items
        then names.old.items else names.old.items ++ name.entry ∷ [])) }
{
    if known.insert(name)? {
        names.push(name)?;
    }
    Ok(())
}

/// The first key that a resolution does not take.
fn first_unknown<'d>(resolution: &Resolution<'_>, keys: &[FieldKey<'d>]) -> Option<FieldKey<'d>>
    ensures { option_map key_of result ≡ first_unknown resolution.now (keys_of keys.now) }
{
    for key in keys {
        if taker_of(resolution, key).is_none() {
            return Some(*key);
        }
    }
    None
}

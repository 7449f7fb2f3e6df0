//! Where the paths of a `use` begin.
ghost use Rattle.std.specs.Prelude.{◌≡◌};
ghost use Rattle.facet_solver_types.specs.PlacedNames.{names_in};
ghost use Rattle.facet_solver_types.specs.Tokens.{tokens_view};
ghost use Rattle.facet_solver_types.specs.UseSources as of;

use crate::grammar::{first_text, is_open, is_own, sees_path};
use crate::name_places::NamePlaces;
use crate::token::{Bracket, Token};

/// Where the paths of a `use` begin.
#[derive(Clone, Copy, Debug, PartialEq, Eq)]
pub(super) enum Source {
    /// In a crate whose types are known.
    Home,
    /// In the crate of the text.
    Own,
    /// In another crate.
    Other,
}

/// Whether the known types are those of a crate of this name, or are read as these.
fn is_home(name: &str) -> bool
    ensures { result ≡ of.is_home name.now }
{
    match name {
        "std" | "core" | "alloc" => true,
        "serde_json" | "serde_yaml" | "toml" => true,
        "facet" | "facet_value" => true,
        _ => false,
    }
}

/// Where paths begin that begin with the name of a crate, or nothing of a list of paths.
fn source_of_crate(tokens: &[Token<'_>]) -> Option<Source>
    ensures { result ≡ of.source_of_crate (tokens_view tokens.now) }
{
    let first = tokens.first()?;
    if is_home(first.text) {
        Some(Source::Home)
    } else if is_open(Bracket::Curly, first.kind) {
        None
    } else {
        Some(Source::Other)
    }
}

/// Where paths begin that begin with the name of a module, or nothing where a known crate has it.
fn source_of_module(name: &str) -> Option<Source>
    ensures { result ≡ of.source_of_module name.now }
{
    if is_home(name) {
        None
    } else {
        Some(Source::Own)
    }
}

/// Where paths begin that have no `::` before them, where modules have these names.
fn source_of_path(modules: &NamePlaces<'_>, tokens: &[Token<'_>]) -> Option<Source>
    ensures { result ≡ of.source_of_path (names_in modules.now) (tokens_view tokens.now) }
{
    let name = first_text(tokens);
    if is_own(tokens) {
        Some(Source::Own)
    } else if modules.contains(name) {
        source_of_module(name)
    } else {
        source_of_crate(tokens)
    }
}

/// Where the paths of a `use` of these tokens begin, if that tells what it takes, where modules have
/// these names.
pub(super) fn source_of(modules: &NamePlaces<'_>, tokens: &[Token<'_>]) -> Option<Source>
    ensures { result ≡ of.source_of (names_in modules.now) (tokens_view tokens.now) }
{
    if sees_path(tokens) {
        source_of_crate(&tokens[1..])
    } else {
        source_of_path(modules, tokens)
    }
}

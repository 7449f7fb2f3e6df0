//! What a type is outside, with its name looked up, and the types in it.
ghost use Rattle.std.specs.Prelude.{◌≡◌, ◌<◌, IfOk, map, length, option_map};
ghost use Rattle.facet_solver_types.specs.Declarations.{parameter_view, parameters_view};
ghost use Rattle.facet_solver_types.specs.Layers as layers;
ghost use Rattle.facet_solver_types.specs.Layers.{layer_view, part_view};
ghost use Rattle.facet_solver_types.specs.Origins.{origin_view};
ghost use Rattle.facet_solver_types.specs.Outcomes.{Gives};
ghost use Rattle.facet_solver_types.specs.Passages.{passage_view};
ghost use Rattle.facet_solver_types.specs.Scopes.{scope_view, str_view};
ghost use Rattle.facet_solver_types.specs.Tokens.{token_view};
ghost use Rattle.facet_solver_types.specs.Understood.{declaration_view, declarations_view, declared_view};
ghost use Rattle.facet_solver_types.specs.WrittenTypes.{named_view, passages_view, written_view};

use super::called::{Called, called_among};
use super::known::{Applied, Known, arity_of, known_type};
use super::meant::{is_here, meant};
use super::scope::Scope;
use super::takings::{deciding, has_elsewhere, has_taking, those_declared};
use crate::attribute::{Misuse, Refusal};
use crate::declaration::{Declaration, Declared};
use crate::fault::Fault;
use crate::grammar::{NamedType, Origin, Written, is_str, written_type};
use crate::item::Parameter;
use crate::modules::is_of_stand_ins;
use crate::passage::Passage;
use crate::problem::Problem;
use crate::site::Site;
use crate::standard::{Standard, count_of};
use crate::token::Token;
use crate::type_problem::TypeProblem;
use facet_solver_shape::ScalarType;
use std::alloc::{AllocError, Global};

/// What a type is outside.
#[derive(Clone, Copy)]
pub(super) enum Head<'d, 't> {
    /// The type that stands in it, as in `( )`.
    Same,
    /// The type of this id, for which a parameter or `Self` stands.
    Bound(&'d str),
    /// What the declaration at an index declares, and what it is called.
    Declared(usize, Called<'t>),
    /// What an alias that stands so names with these parameters.
    Alias(Site<'t>, &'d [Parameter<'t>], Passage<'d, 't>),
    /// A scalar, by its name.
    Scalar(&'t str, ScalarType),
    /// A value of any shape, by its name.
    Dynamic(&'t str),
    /// What a type of this name makes of those in it.
    Applied(&'t str, Applied),
    /// A type of std of this name.
    Standard(&'t str, Standard),
    /// An array, with the tokens of its length.
    Array(&'d [Token<'t>]),
    Slice,
    Tuple,
}

/// What stands in a type.
#[derive(Clone, Copy)]
pub(super) enum Part<'d, 't> {
    /// A type.
    Type(Passage<'d, 't>),
    /// The tokens of a value.
    Value(&'d [Token<'t>]),
}

/// What a type is outside, and what stands in it.
#[derive(Drop)]
pub(super) struct Layer<'d, 't> {
    pub(super) head: Head<'d, 't>,
    pub(super) parts: Vec<Part<'d, 't>>,
}

/// A type that has none in it.
fn leaf<'d, 't>(alloc: Global, head: Head<'d, 't>) -> Layer<'d, 't>
    ensures { layer_view result ≡ layers.leaf (layers.head_view head.entry) }
{
    Layer {
        head,
        parts: Vec::new(alloc),
    }
}

/// A type that has one in it.
fn around<'d, 't>(
    alloc: Global,
    head: Head<'d, 't>,
    part: Passage<'d, 't>,
) -> Result<Layer<'d, 't>, AllocError>
    ensures { IfOk result (λ layer. layer_view layer
        ≡ layers.around (layers.head_view head.entry) (passage_view part.entry)) }
{
    let mut parts = Vec::new(alloc);
    parts.push(Part::Type(part))?;
    Ok(Layer { head, parts })
}

/// A type that has these types in it.
fn around_all<'d, 't>(
    alloc: Global,
    head: Head<'d, 't>,
    types: &[Passage<'d, 't>],
) -> Result<Layer<'d, 't>, AllocError>
    ensures { IfOk result (λ layer. layer_view layer
        ≡ layers.around_all (layers.head_view head.entry) (passages_view types.now)) }
{
    let mut parts = Vec::new(alloc);
    for part in types {
        parts.push(Part::Type(*part))?;
    }
    Ok(Layer { head, parts })
}

/// The fault where something is wrong with a type of a name.
fn wrong(name: Token<'_>, problem: TypeProblem) -> Fault
    ensures { result ≡ layers.wrong name.entry.offset problem }
{
    Fault::At {
        offset: name.offset,
        problem: Problem::OfType(problem),
    }
}

/// The types that a name takes, which are so many.
fn taken<'d, 't>(count: usize, named: NamedType<'d, 't>) -> Result<Vec<Passage<'d, 't>>, Fault>
    ensures { Gives (λ types. passages_view types.items)
        (layers.taken count (named_view named.entry)) result }
{
    if named.types.len() == count {
        Ok(named.types)
    } else {
        Err(wrong(named.name, TypeProblem::Takes(count)))
    }
}

/// What stands for a parameter.
fn part_of<'d, 't>(parameter: Parameter<'t>, passage: Passage<'d, 't>) -> Part<'d, 't>
    ensures { part_view result
        ≡ layers.part_of (parameter_view parameter.entry) (passage_view passage.entry) }
{
    if parameter.is_const {
        Part::Value(passage.tokens)
    } else {
        Part::Type(passage)
    }
}

/// What stands for parameters.
fn parts_of<'d, 't>(
    alloc: Global,
    parameters: &[Parameter<'t>],
    passages: &[Passage<'d, 't>],
) -> Result<Vec<Part<'d, 't>>, AllocError>
    ensures { IfOk result (λ parts. map part_view parts.items
        ≡ layers.parts_of (parameters_view parameters.now) (passages_view passages.now)) }
{
    let mut parts = Vec::new(alloc);
    for (parameter, passage) in parameters.iter().zip(passages) {
        parts.push(part_of(*parameter, *passage))?;
    }
    Ok(parts)
}

/// What a type is outside by the declaration at an index, where those at some have its name.
fn declared_head<'d, 't>(
    declarations: &[Declaration<'d, 't>],
    namesakes: &[usize],
    index: usize,
    declaration: &'d Declaration<'d, 't>,
) -> Head<'d, 't>
    ensures { layers.head_view result
        ≡ layers.declared_head (declarations_view declarations.now) namesakes.now index
        (declaration_view declaration.now) }
{
    match &declaration.declared {
        Declared::Alias(written) => {
            Head::Alias(declaration.site, &declaration.parameters, *written)
        }
        _ => {
            let called = called_among(declarations, namesakes, index, declaration);
            Head::Declared(index, called)
        }
    }
}

/// How many parameters there are.
fn parameter_count(parameters: &[Parameter<'_>]) -> usize
    ensures { result ≡ length (parameters_view parameters.now) }
{
    parameters.len()
}

/// What a name takes for these parameters.
fn taken_parts<'d, 't>(
    alloc: Global,
    parameters: &[Parameter<'t>],
    named: NamedType<'d, 't>,
) -> Result<Vec<Part<'d, 't>>, Fault>
    ensures { Gives (λ parts. map part_view parts.items)
        (layers.taken_parts (parameters_view parameters.now) (named_view named.entry)) result }
{
    let types = taken(parameter_count(parameters), named)?;
    Ok(parts_of(alloc, parameters, &types)?)
}

/// Whether nothing is declared that could be read.
fn is_unread(declared: &Declared<'_, '_>) -> bool
    ensures { result ≡ layers.is_unread (declared_view declared.now) }
{
    match declared {
        Declared::Unread => true,
        _ => false,
    }
}

/// Whether a declaration takes all types, which are passed over: a stand-in without parameters, and
/// one of which nothing could be read.
fn takes_all(declaration: &Declaration<'_, '_>) -> bool
    ensures { result ≡ layers.takes_all (declaration_view declaration.now) }
{
    is_unread(&declaration.declared)
        || (is_of_stand_ins(declaration.site.module_name) && declaration.parameters.is_empty())
}

/// What stands for the parameters of a declaration.
fn declared_parts<'d, 't>(
    alloc: Global,
    declaration: &'d Declaration<'d, 't>,
    named: NamedType<'d, 't>,
) -> Result<Vec<Part<'d, 't>>, Fault>
    ensures { Gives (λ parts. map part_view parts.items)
        (layers.declared_parts (declaration_view declaration.now) (named_view named.entry))
        result }
{
    if takes_all(declaration) {
        return Ok(Vec::new(alloc));
    }
    taken_parts(alloc, &declaration.parameters, named)
}

/// A type by the declaration at an index, where those at some have its name.
fn declared_layer<'d, 't>(
    alloc: Global,
    declarations: &[Declaration<'d, 't>],
    named: NamedType<'d, 't>,
    namesakes: &[usize],
    index: usize,
    declaration: &'d Declaration<'d, 't>,
) -> Result<Layer<'d, 't>, Fault>
    ensures { Gives layer_view
        (layers.declared_layer (declarations_view declarations.now) (named_view named.entry)
        namesakes.now index (declaration_view declaration.now)) result }
{
    let parts = declared_parts(alloc, declaration, named)?;
    Ok(Layer {
        head: declared_head(declarations, namesakes, index, declaration),
        parts,
    })
}

/// Whether a `Cow` of these is known: of `str` alone.
fn is_text(types: &[Passage<'_, '_>]) -> bool
    ensures { result ≡ layers.is_text (passages_view types.now) }
{
    match types.split_first() {
        None => false,
        Some((first, others)) => is_str(first.tokens) && others.is_empty(),
    }
}

/// A type by a name without the hasher that may stand behind so many types.
fn without_hasher<'d, 't>(count: usize, named: NamedType<'d, 't>) -> NamedType<'d, 't>
    requires { count < 3 }
    ensures { named_view result ≡ layers.without_hasher count (named_view named.entry) }
{
    let NamedType {
        name,
        origin,
        mut types,
    } = named;
    if types.len() == count + 1 {
        types.truncate(count);
    }
    NamedType {
        name,
        origin,
        types,
    }
}

/// What a name makes of the types that it takes.
fn made_of<'d, 't>(
    alloc: Global,
    kind: Applied,
    named: NamedType<'d, 't>,
) -> Result<Layer<'d, 't>, Fault>
    ensures { Gives layer_view (layers.made_of kind (named_view named.entry)) result }
{
    let name = named.name.text;
    let types = taken(arity_of(kind), named)?;
    Ok(around_all(alloc, Head::Applied(name, kind), &types)?)
}

/// An array of the first of two types, where the second stands for its length.
fn array_of_two<'d, 't>(
    alloc: Global,
    name: Token<'t>,
    types: &[Passage<'d, 't>],
) -> Result<Layer<'d, 't>, Fault>
    ensures { Gives layer_view
        (layers.array_of_two (token_view name.entry) (passages_view types.now)) result }
{
    match types {
        [item, len] => Ok(around(alloc, Head::Array(len.tokens), *item)?),
        _ => Err(wrong(name, TypeProblem::Takes(2))),
    }
}

/// A type of std, unless its path leads elsewhere, where another type may have its name.
fn standard_layer<'d, 't>(
    alloc: Global,
    named: NamedType<'d, 't>,
    kind: Standard,
) -> Result<Layer<'d, 't>, Fault>
    ensures { Gives layer_view
        (layers.standard_layer (named_view named.entry) kind) result }
{
    let name = named.name;
    if !is_here(named.origin) && !is_to_known(named.origin) {
        return Err(wrong(name, TypeProblem::Unknown));
    }
    let types = taken(count_of(kind), named)?;
    Ok(around_all(alloc, Head::Standard(name.text, kind), &types)?)
}

/// A type that needs no declaration.
fn known_as<'d, 't>(
    alloc: Global,
    named: NamedType<'d, 't>,
    known: Known,
) -> Result<Layer<'d, 't>, Fault>
    ensures { Gives layer_view (layers.known_as (named_view named.entry) known) result }
{
    let name = named.name;
    match known {
        Known::Scalar(kind) => {
            let _none = taken(0, named)?;
            Ok(leaf(alloc, Head::Scalar(name.text, kind)))
        }
        Known::Dynamic => {
            let _none = taken(0, named)?;
            Ok(leaf(alloc, Head::Dynamic(name.text)))
        }
        Known::Cow => {
            if is_text(&named.types) {
                Ok(leaf(alloc, Head::Scalar("Cow<str>", ScalarType::CowStr)))
            } else {
                Err(wrong(name, TypeProblem::Unknown))
            }
        }
        Known::Phantom => {
            let _passed_over = taken(1, named)?;
            Ok(leaf(alloc, Head::Scalar("()", ScalarType::Unit)))
        }
        Known::ArrayVec => array_of_two(alloc, name, &named.types),
        Known::Wrapper => {
            let types = taken(1, named)?;
            Ok(around_all(alloc, Head::Same, &types)?)
        }
        Known::Hashed(kind) => made_of(alloc, kind, without_hasher(arity_of(kind), named)),
        Known::Applied(kind) => made_of(alloc, kind, named),
        Known::Standard(kind) => standard_layer(alloc, named, kind),
    }
}

/// A type by a name that is declared nowhere.
fn undeclared<'d, 't>(alloc: Global, named: NamedType<'d, 't>) -> Result<Layer<'d, 't>, Fault>
    ensures { Gives layer_view (layers.undeclared (named_view named.entry)) result }
{
    let name = named.name;
    match known_type(name.text) {
        Some(known) => known_as(alloc, named, known),
        None => Err(wrong(name, TypeProblem::Unknown)),
    }
}

/// Where the name of the declaration at an index stands.
fn offset_at(declarations: &[Declaration<'_, '_>], index: usize) -> usize
    ensures { result ≡ layers.offset_at (declarations_view declarations.now) index }
{
    match declarations.get(index) {
        Some(declaration) => declaration.name.offset,
        None => 0,
    }
}

/// Whether a path leads to the stand-ins alone.
fn is_to_stand_ins(origin: Origin<'_>) -> bool
    ensures { result ≡ layers.is_to_stand_ins (origin_view origin.entry) }
{
    match origin {
        Origin::Beside(module_name) => is_of_stand_ins(module_name),
        _ => false,
    }
}

/// Whether a path leads into a crate whose types are known.
fn is_to_known(origin: Origin<'_>) -> bool
    ensures { result ≡ layers.is_to_known (origin_view origin.entry) }
{
    match origin {
        Origin::Known => true,
        _ => false,
    }
}

/// A type by a name that is declared at some indices, and means none of these.
fn none_meant<'d, 't>(
    alloc: Global,
    named: NamedType<'d, 't>,
    namesakes: &[usize],
) -> Result<Layer<'d, 't>, Fault>
    ensures { Gives layer_view (layers.none_meant (named_view named.entry) namesakes.now) result }
{
    if is_to_stand_ins(named.origin) {
        return Err(Fault::At {
            offset: named.name.offset,
            problem: Problem::Attribute(Refusal::Misused(Misuse::Unsupported)),
        });
    }
    if is_to_known(named.origin) || namesakes.is_empty() {
        return undeclared(alloc, named);
    }
    Err(wrong(named.name, TypeProblem::Unknown))
}

/// A type by a name that is declared at some indices, and means the declarations at others.
fn layer_by<'d, 't>(
    alloc: Global,
    scope: Scope<'d, 't>,
    named: NamedType<'d, 't>,
    namesakes: &[usize],
    meant: &[usize],
) -> Result<Layer<'d, 't>, Fault>
    ensures { Gives layer_view
        (layers.layer_by (scope_view scope.entry) (named_view named.entry) namesakes.now meant.now)
        result }
{
    match meant {
        [] => none_meant(alloc, named, namesakes),
        [index] => match scope.at(*index) {
            Some(declaration) => {
                let declarations = scope.declarations.list;
                declared_layer(alloc, declarations, named, namesakes, *index, declaration)
            }
            None => undeclared(alloc, named),
        },
        [_, other, ..] => Err(Fault::At {
            offset: offset_at(scope.declarations.list, *other),
            problem: Problem::OfType(TypeProblem::Twice),
        }),
    }
}

/// A type by a name that a `use` takes, at these indices: unknown, or one that needs no declaration.
fn taken_layer<'d, 't>(
    alloc: Global,
    scope: Scope<'d, 't>,
    named: NamedType<'d, 't>,
    takings: &[usize],
) -> Result<Layer<'d, 't>, Fault>
    ensures { Gives layer_view
        (layers.taken_layer (scope_view scope.entry) (named_view named.entry) takings.now)
        result }
{
    if has_elsewhere(scope.declarations.list, takings) {
        return Err(wrong(named.name, TypeProblem::Unknown));
    }
    undeclared(alloc, named)
}

/// A type by a name that stands at some indices, where a `use` takes it in some module.
fn layer_beside<'d, 't>(
    alloc: Global,
    scope: Scope<'d, 't>,
    named: NamedType<'d, 't>,
    namesakes: &[usize],
) -> Result<Layer<'d, 't>, Fault>
    ensures { Gives layer_view
        (layers.layer_beside (scope_view scope.entry) (named_view named.entry) namesakes.now)
        result }
{
    let declared = those_declared(alloc, scope.declarations.list, namesakes)?;
    let takings = deciding(alloc, scope, named.origin, namesakes, &declared)?;
    if !takings.is_empty() {
        return taken_layer(alloc, scope, named, &takings);
    }
    let meant = meant(alloc, scope, named.origin, &declared)?;
    layer_by(alloc, scope, named, &declared, &meant)
}

/// A type by a name: of a declaration, or else of one that needs none.
fn free_layer<'d, 't>(
    alloc: Global,
    scope: Scope<'d, 't>,
    named: NamedType<'d, 't>,
) -> Result<Layer<'d, 't>, Fault>
    ensures { Gives layer_view
        (layers.free_layer (scope_view scope.entry) (named_view named.entry)) result }
{
    let namesakes = scope.declarations.namesakes(alloc, named.name.text)?;
    if has_taking(scope.declarations.list, &namesakes) {
        return layer_beside(alloc, scope, named, &namesakes);
    }
    let meant = meant(alloc, scope, named.origin, &namesakes)?;
    layer_by(alloc, scope, named, &namesakes, &meant)
}

/// The id for which a name alone stands as a parameter, if it does.
fn alone_id<'d, 't>(scope: Scope<'d, 't>, named: &NamedType<'_, 't>) -> Option<&'d str>
    ensures { option_map str_view result
        ≡ layers.alone_id (scope_view scope.entry) (named_view named.now) }
{
    if !is_here(named.origin) || !named.types.is_empty() {
        return None;
    }
    scope.bound_id(named.name.text)
}

/// A type by a name: of a parameter, or else of one that has nothing to do with these.
fn named_layer<'d, 't>(
    alloc: Global,
    scope: Scope<'d, 't>,
    named: NamedType<'d, 't>,
) -> Result<Layer<'d, 't>, Fault>
    ensures { Gives layer_view
        (layers.named_layer (scope_view scope.entry) (named_view named.entry)) result }
{
    match alone_id(scope, &named) {
        Some(id) => Ok(leaf(alloc, Head::Bound(id))),
        None => free_layer(alloc, scope, named),
    }
}

/// `Self`, which stands at an offset.
fn this_layer<'d, 't>(
    alloc: Global,
    this: Option<&'d str>,
    offset: usize,
) -> Result<Layer<'d, 't>, Fault>
    ensures { Gives layer_view
        (layers.this_layer (option_map str_view this.entry) offset) result }
{
    match this {
        Some(id) => Ok(leaf(alloc, Head::Bound(id))),
        None => Err(Fault::At {
            offset,
            problem: Problem::OfType(TypeProblem::Unknown),
        }),
    }
}

/// What a written type is outside, which begins at an offset.
fn layer_of<'d, 't>(
    alloc: Global,
    scope: Scope<'d, 't>,
    offset: usize,
    written: Written<'d, 't>,
) -> Result<Layer<'d, 't>, Fault>
    ensures { Gives layer_view
        (layers.layer_of (scope_view scope.entry) offset (written_view written.entry)) result }
{
    match written {
        Written::Unit => Ok(leaf(alloc, Head::Scalar("()", ScalarType::Unit))),
        Written::Enclosed(held) => Ok(around(alloc, Head::Same, held)?),
        Written::Tuple(parts) => Ok(around_all(alloc, Head::Tuple, &parts)?),
        Written::Slice(item) => Ok(around(alloc, Head::Slice, item)?),
        Written::Array(item, len) => Ok(around(alloc, Head::Array(len), item)?),
        Written::Text => Ok(leaf(alloc, Head::Scalar("&str", ScalarType::Str))),
        Written::Bytes => Ok(leaf(alloc, Head::Scalar("&[u8]", ScalarType::Str))),
        Written::This => this_layer(alloc, scope.this, offset),
        Written::Named(named) => named_layer(alloc, scope, named),
    }
}

/// What a type is outside, and what stands in it.
///
/// Errors: the first token that no type has there; a name that no type has, or two declarations;
/// another number of types than it takes; out of memory.
pub(super) fn layer_at<'d, 't>(
    alloc: Global,
    scope: Scope<'d, 't>,
    passage: Passage<'d, 't>,
) -> Result<Layer<'d, 't>, Fault>
    ensures { Gives layer_view
        (layers.layer_at (scope_view scope.entry) (passage_view passage.entry)) result }
{
    let written = written_type(alloc, passage)?;
    layer_of(alloc, scope, passage.place(), written)
}

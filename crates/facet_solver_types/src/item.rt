//! Declarations, as their tokens. What types and attributes mean is not looked at.

use crate::fault::Fault;
use crate::passage::Passage;
use crate::site::Site;
use crate::token::Token;

/// A parameter of a declaration. A lifetime is none.
#[derive(Clone, Copy, Debug, PartialEq, Eq)]
pub(crate) struct Parameter<'t> {
    pub(crate) name: Token<'t>,
    /// Whether it stands for a value, as after `const`, and for no type.
    pub(crate) is_const: bool,
}

/// A field of a struct or a variant.
#[derive(Clone, Copy, Debug)]
pub(crate) struct FieldDeclaration<'s, 't> {
    /// The tokens of its attributes.
    pub(crate) attributes: &'s [Token<'t>],
    /// Its name, if it has one.
    pub(crate) name: Option<Token<'t>>,
    /// Its type, as it is written, which has some tokens.
    pub(crate) written: Passage<'s, 't>,
}

/// The fields of a struct or a variant.
#[derive(Drop)]
pub(crate) enum Body<'s, 't> {
    /// None, and no brackets.
    Unit,
    /// In `( )`, without names.
    Tuple(Vec<FieldDeclaration<'s, 't>>),
    /// In `{ }`, with names.
    Named(Vec<FieldDeclaration<'s, 't>>),
}

/// A variant of an enum.
#[derive(Drop)]
pub(crate) struct VariantDeclaration<'s, 't> {
    /// The tokens of its attributes.
    pub(crate) attributes: &'s [Token<'t>],
    pub(crate) name: Token<'t>,
    pub(crate) body: Body<'s, 't>,
}

/// A struct.
#[derive(Drop)]
pub(crate) struct StructDeclaration<'s, 't> {
    /// The tokens of its attributes.
    pub(crate) attributes: &'s [Token<'t>],
    pub(crate) name: Token<'t>,
    pub(crate) parameters: Vec<Parameter<'t>>,
    pub(crate) body: Body<'s, 't>,
}

/// An enum.
#[derive(Drop)]
pub(crate) struct EnumDeclaration<'s, 't> {
    /// The tokens of its attributes.
    pub(crate) attributes: &'s [Token<'t>],
    pub(crate) name: Token<'t>,
    pub(crate) parameters: Vec<Parameter<'t>>,
    pub(crate) variants: Vec<VariantDeclaration<'s, 't>>,
}

/// An alias of a type.
#[derive(Drop)]
pub(crate) struct AliasDeclaration<'s, 't> {
    /// The tokens of its attributes.
    pub(crate) attributes: &'s [Token<'t>],
    pub(crate) name: Token<'t>,
    pub(crate) parameters: Vec<Parameter<'t>>,
    /// What stands between its `=` and `;`.
    pub(crate) written: Passage<'s, 't>,
}

/// A struct, an enum or an alias with a name that cannot be read.
#[derive(Clone, Copy, Debug)]
pub(crate) struct FaultyDeclaration<'s, 't> {
    /// The tokens of its attributes.
    pub(crate) attributes: &'s [Token<'t>],
    pub(crate) name: Token<'t>,
    /// Why it cannot be read.
    pub(crate) fault: Fault,
}

/// An item of a text.
#[derive(Drop)]
pub(crate) enum Item<'s, 't> {
    Struct(StructDeclaration<'s, 't>),
    Enum(EnumDeclaration<'s, 't>),
    Alias(AliasDeclaration<'s, 't>),
    Faulty(FaultyDeclaration<'s, 't>),
    /// The impl of `Deserialize` or `Facet` by hand for the type of this name.
    Impl(Token<'t>),
    /// A `use`, by the tokens between it and its `;`.
    Use(&'s [Token<'t>]),
    /// One that declares no type: it is passed over.
    Other,
}

/// An item, and where it stands.
#[derive(Drop)]
pub(crate) struct ModuleItem<'s, 't> {
    pub(crate) site: Site<'t>,
    pub(crate) item: Item<'s, 't>,
}

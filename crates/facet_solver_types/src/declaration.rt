//! Declarations, with what their attributes say. Types are still tokens.
ghost use Rattle.std.specs.Prelude.{◌≡◌};

use crate::fault::Fault;
use crate::item::Parameter;
use crate::passage::Passage;
use crate::site::Site;
use crate::token::Token;
use facet_solver_shape::{DomMark, StructKind};

/// A type that an attribute says, by the tokens of the text or by those in a text token.
#[derive(Drop)]
pub(crate) enum SaidType<'s, 't> {
    /// Written out.
    Plain(Passage<'s, 't>),
    /// In a text token: its tokens, which all stand where it stands.
    Quoted {
        tokens: Vec<Token<'t>>,
        /// Where the text token stands.
        place: usize,
    },
}

impl<'s, 't> SaidType<'s, 't> {
    ghost use Rattle.facet_solver_types.specs.Understood.{said_type_view};
    ghost use Rattle.facet_solver_types.specs.Passages.{passage_view};

    /// The tokens of the type.
    pub(crate) fn passage(&self) -> Passage<'_, 't>
        ensures { passage_view result ≡ said_type_view self.now }
    {
        match self {
            SaidType::Plain(passage) => *passage,
            SaidType::Quoted { tokens, place } => Passage {
                tokens,
                end: *place,
            },
        }
    }
}

/// A type as which something is read in place of its own.
#[derive(Drop)]
pub(crate) struct Proxy<'s, 't> {
    /// Where the attribute stands.
    pub(crate) offset: usize,
    pub(crate) said: SaidType<'s, 't>,
}

/// A field of a struct or a variant.
#[derive(Drop)]
pub(crate) struct DeclaredField<'s, 't> {
    /// Where its name stands, or its type if it has none.
    pub(crate) offset: usize,
    /// Its name; of a field without one, its number.
    pub(crate) name: String,
    /// The name that it goes by in a document, where that is another.
    pub(crate) rename: Option<String>,
    /// Where `flatten` stands, if it is flattened.
    pub(crate) flattened: Option<usize>,
    pub(crate) has_default: bool,
    pub(crate) metadata: bool,
    pub(crate) dom: DomMark,
    /// Its type, which has some tokens.
    pub(crate) written: Passage<'s, 't>,
    /// What it is read as in place of its type: all are one type.
    pub(crate) proxies: Vec<Proxy<'s, 't>>,
}

/// A variant of an enum.
#[derive(Drop)]
pub(crate) struct DeclaredVariant<'s, 't> {
    /// Where its name stands.
    pub(crate) offset: usize,
    /// Its name as it is written.
    pub(crate) written_name: String,
    /// The name that it goes by in a document.
    pub(crate) name: String,
    pub(crate) kind: StructKind,
    pub(crate) fields: Vec<DeclaredField<'s, 't>>,
}

/// What a declaration declares.
#[derive(Drop)]
pub(crate) enum Declared<'s, 't> {
    /// A struct.
    Struct {
        kind: StructKind,
        fields: Vec<DeclaredField<'s, 't>>,
        /// Whether it stands for its one field.
        is_transparent: bool,
        /// Whether it stands for it since it says `transparent`.
        says_transparent: bool,
        is_metadata_container: bool,
    },
    /// An enum.
    Enum {
        variants: Vec<DeclaredVariant<'s, 't>>,
        tag: Option<String>,
        content: Option<String>,
        untagged: bool,
    },
    /// A struct or enum that is read as another type. All of these are one type; there is one.
    Proxied(Vec<Proxy<'s, 't>>),
    /// An alias of a type.
    Alias(Passage<'s, 't>),
    /// Nothing: a `use` takes the name from a crate whose types are known.
    Home,
    /// Nothing: a `use` takes the name from elsewhere.
    Elsewhere,
    /// What could not be read. The declaration has a fault.
    Unread,
}

/// A declaration of a type.
#[derive(Drop)]
pub(crate) struct Declaration<'s, 't> {
    /// Where it stands.
    pub(crate) site: Site<'t>,
    /// Its name.
    pub(crate) name: Token<'t>,
    /// Its type and const parameters.
    pub(crate) parameters: Vec<Parameter<'t>>,
    /// Whether it is one of some that are one under different conditions.
    pub(crate) has_other_forms: bool,
    /// Whether members of other names than its fields' are refused.
    pub(crate) denies_unknown: bool,
    /// What is wrong with its attributes, its fields and its variants. A field or variant that has
    /// a fault is not declared.
    pub(crate) faults: Vec<Fault>,
    pub(crate) declared: Declared<'s, 't>,
}

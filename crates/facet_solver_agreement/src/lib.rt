//! What a reader reads, a solver keeps.
//!
//! A reader (`facet_solver_reader`) reads an object by choices of the parts of a type. A solver
//! (`facet_solver`) holds the resolutions of the choices of a schema, and is told an object's keys.
//! The laws here tie the one to the other: each is the contract of a function that does nothing. So
//! neither library needs the other.
//!
//! The laws are of the types that both take alike (`IsTakenAlike` in `specs/Alike.antt`):
//!
//! - The root is a struct with named fields. It is no metadata container, and has no `inner` and no
//!   `proxy`.
//! - Of each enum that is flattened into it, at whatever level, and is untagged or has a tag alone,
//!   each variant has named content: no fields, fields with names, or a single field `0` that comes,
//!   by `inner` and `proxy` alone, to a struct with named fields.
//!
//! What a solver keeps is told of types that, moreover, flatten no adjacently tagged enum
//! (`IsKeptAlike`). [`is_alike_throughout`] finds whether a catalogue shows that of a root.
//!
//! Elsewhere the two differ. Of a field `0` that comes to an enum, for example, a schema has a
//! field named `0`, where a reader has the branches of that enum. Of the content of an adjacently
//! tagged enum a schema has no field.
#![tactic(auto)]

ghost use Rattle.std.specs.Prelude.{ℕ, Bool, List, None};
ghost use Rattle.facet_solver_shape.specs.Catalogues.{Catalogue, IsChecked};
ghost use Rattle.facet_solver_shape.specs.Keys.{Key};
ghost use Rattle.facet_solver_shape.specs.Names.{Name};
ghost use Rattle.facet_solver.specs.build.Build.{build_with};
ghost use Rattle.facet_solver.specs.build.Choice.{Emits, IsChoiceDuplicate};
ghost use Rattle.facet_solver.specs.build.Emissions.{Emission};
ghost use Rattle.facet_solver.specs.build.Place.{Path};
ghost use Rattle.facet_solver.specs.declared.build.format.Format.{Format};
ghost use Rattle.facet_solver.specs.schema.Schema.{IsBuilt, SchemaView, flat_build};
ghost use Rattle.facet_solver_reader.specs.Choices.{Choice, Item, Reading};
ghost use Rattle.facet_solver_reader.specs.Documents.{Member, Tree};
ghost use Rattle.facet_solver_reader.specs.Known.{Chooses, IsDistinct};
ghost use Rattle.facet_solver_reader.specs.Parts.{of_shape, of_struct};
ghost use Rattle.facet_solver_reader.specs.Readings.{ReadsValue};
ghost use Rattle.facet_solver_reader.specs.Types.{parts_of, rules_of};
ghost use Rattle.facet_solver_agreement.specs.Alike.{IsKeptAlike, IsTakenAlike};
ghost use Rattle.facet_solver_agreement.specs.Fits.{FitsByNames, IsFitting, SomeFits};
ghost use Rattle.facet_solver_agreement.specs.Kept.{IsViableAfter, KeepsChoice, KeepsReading};
ghost use Rattle.facet_solver_agreement.specs.Kept.{ReadsAsRoot, TellNames};
ghost use Rattle.facet_solver_agreement.specs.Same.{IsChosenAs, IsWalkedAs};

mod throughout;

pub use throughout::is_alike_throughout;

/// The choices of the root's parts are those of its schema, whatever the kind of document. The
/// indices of a reader's choice (`indices_of`) are a choice of the schema, and each choice of the
/// schema is the indices of one of the reader. The two ask for the same names, in the same order
/// and required alike, but for the content of adjacently tagged enums. A schema has its resolutions
/// in the order of these indices.
pub fn choices_are_those_of_the_schema()
    ensures of_the_reader { (shapes : Catalogue) (root : ℕ) (format : Format)
        → IsChecked shapes → IsTakenAlike shapes root
        → (c : Choice) (items : List Item) → Chooses (parts_of shapes) (of_struct root) c items
        → IsWalkedAs (build_with shapes None format) root c items }
    ensures of_the_schema { (shapes : Catalogue) (root : ℕ) (format : Format)
        → IsChecked shapes → IsTakenAlike shapes root
        → (choice : List ℕ) (es : List Emission)
        → Emits (build_with shapes None format) root choice es
        → IsChosenAs shapes root choice es }
{}

/// If no choice of the root's parts has a key twice (two members of one name, or two catch-alls),
/// the root has no duplicate keys: no builder that goes by the enums' own representations refuses
/// it for one.
pub fn distinct_choices_are_built()
    ensures { (shapes : Catalogue) (root : ℕ) (format : Format)
        → IsChecked shapes → IsTakenAlike shapes root
        → IsDistinct (Chooses (parts_of shapes) (of_struct root))
        → (name : Name) (first second : Path)
        → ¬ IsChoiceDuplicate (build_with shapes None format) root name first second }
{}

/// Names alone decide what a solver keeps. A choice fits an object by its names if it has each name
/// of the object that some choice has, and each name that it requires is one of the object's. A new
/// solver over the schema that `Schema::build_auto` makes, told each of the object's names by
/// `see_key`, has the resolution of each such choice viable. Where there is one, each viable
/// resolution is that of such a choice.
pub fn names_decide()
    ensures fitting { (shapes : Catalogue) (root : ℕ) (schema : SchemaView)
        → IsChecked shapes → IsKeptAlike shapes root
        → IsBuilt (flat_build shapes None) root schema
        → (c : Choice) (items : List Item) → Chooses (parts_of shapes) (of_struct root) c items
        → (ms : List Member) → FitsByNames shapes root ms items
        → (keys : List Key) → TellNames keys ms → KeepsChoice schema keys c }
    ensures no_other { (shapes : Catalogue) (root : ℕ) (schema : SchemaView)
        → IsChecked shapes → IsKeptAlike shapes root
        → IsBuilt (flat_build shapes None) root schema
        → (ms : List Member) → SomeFits shapes root ms
        → (keys : List Key) → TellNames keys ms
        → (index : ℕ) → IsViableAfter schema keys index → IsFitting schema ms index }
{}

/// What is read is viable. If a reader reads an object by a choice of the root's parts, strict or
/// not, then a new solver over the schema that `Schema::build_auto` makes of the same shapes and
/// root, told each of the object's names by `see_key`, has the resolution of that choice viable. It
/// is the resolution of the choice's indices, has the names of the choice's members, and requires
/// those of its required members. The order in which the names are told does not matter, nor how
/// often.
///
/// `of_a_document` is of a whole document that is read as the root; it is an object then.
pub fn read_is_viable()
    ensures of_an_object { (shapes : Catalogue) (root : ℕ) (strict : Bool) (schema : SchemaView)
        → IsChecked shapes → IsKeptAlike shapes root
        → IsBuilt (flat_build shapes None) root schema
        → (ms : List Member) (c : Choice) → ReadsAsRoot shapes root strict ms c
        → (keys : List Key) → TellNames keys ms → KeepsChoice schema keys c }
    ensures of_a_document { (shapes : Catalogue) (root : ℕ) (strict : Bool) (schema : SchemaView)
        → IsChecked shapes → IsKeptAlike shapes root
        → IsBuilt (flat_build shapes None) root schema
        → (v : Tree) (r : Reading) → ReadsValue (rules_of shapes strict) (of_shape root) v r
        → KeepsReading schema v r }
{}

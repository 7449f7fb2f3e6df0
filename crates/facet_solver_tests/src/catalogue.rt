//! Calls that are about types alone.

use crate::ambiguities::of_declared;
use crate::answer::{Answer, BAR};
use crate::declarations::{of_catalogue, of_text};
use crate::documents::{of_json, of_readings};
use crate::look_ups::of_reading;
use crate::types::place_of;
use crate::uses::{of_config, of_element, of_events, of_keys, of_type, of_value};
use facet_solver::{
    EnumRepr, Field, Format, Schema, SchemaError, Shape, ShapeId, ShapeKind, Shapes, Steps,
    Variant, VariantFormat, VariantsByFormat, specificity_score,
};
use facet_solver_reader::Unknown;
use std::alloc::AllocError;

/// A catalogue and the names of its types.
#[derive(Clone, Copy)]
pub struct Catalogue<'c> {
    pub shapes: &'c Shapes,
    pub names: &'c [&'c str],
}

impl<'c> Catalogue<'c> {
    /// Answers a call.
    pub fn answer(&self, answer: &mut Answer<'_>) {
        match answer.word() {
            "check" => answer.add("accepted"),
            "count" => self.count(answer),
            "representation" => self.representation(answer),
            "score" => self.score(answer),
            "variant" => self.variant(answer),
            "variants" => self.variants(answer),
            "ambiguity_table" => of_type(*self, answer),
            "keys_to_choice" => of_keys(*self, answer),
            "element_to_choice" => of_element(*self, answer),
            "load_config" => of_config(*self, answer),
            "stream" => of_events(*self, answer),
            "variants_for" => of_value(*self, answer),
            "declarations" => of_catalogue(*self, answer),
            "types" => of_text(answer),
            "look_up" => of_reading(*self, answer),
            "json" => of_json(answer),
            "readings" => of_readings(*self, Unknown::Ignored, answer),
            "strict_readings" => of_readings(*self, Unknown::Refused, answer),
            "ambiguities" => of_declared(Unknown::Ignored, answer),
            "strict_ambiguities" => of_declared(Unknown::Refused, answer),
            BAR => answer.add_error(),
            _ => answer.unread(),
        }
    }

    /// The place of the type that is named next.
    pub fn id(&self, answer: &mut Answer<'_>) -> ShapeId {
        let name = answer.word();
        self.id_of(name, answer)
    }

    /// The place of the type of a name.
    pub fn id_of(&self, name: &str, answer: &mut Answer<'_>) -> ShapeId {
        let id = place_of(self.names, name).unwrap_or(ShapeId::new(usize::MAX));
        if !self.shapes.has(id) {
            answer.unread();
        }
        id
    }

    /// Reads the types of all words that are left.
    pub fn read_shapes(&self, answer: &mut Answer<'_>) {
        answer.shapes.clear();
        for _ in 0..usize::MAX {
            let name = answer.next_word();
            if name.is_empty() {
                break;
            }
            let id = self.id_of(name, answer);
            if answer.shapes.push(id).is_err() {
                answer.refused();
            }
        }
    }

    fn shape(&self, answer: &mut Answer<'_>) -> Option<&'c Shape> {
        let id = self.id(answer);
        self.shapes.get(id)
    }

    /// The first field of the struct that is named next.
    pub fn first_field(&self, answer: &mut Answer<'_>) -> Option<&'c Field> {
        match &self.shape(answer)?.kind {
            ShapeKind::Struct { fields, .. } => fields.first(),
            _ => None,
        }
    }

    /// What a type is called.
    pub fn name(&self, id: ShapeId) -> &'c str {
        match self.shapes.get(id) {
            Some(shape) => shape.type_identifier.as_str(),
            None => "?",
        }
    }

    /// The schema of a root, as the words behind it say. Where they can't be read, that is noted.
    pub fn build<'t>(&self, answer: &mut Answer<'t>) -> Result<Schema<'c>, SchemaError<'c>>
    where
        't: 'c,
    {
        let root = self.id(answer);
        let builder = answer.next_word();
        self.build_by(builder, root, answer)
    }

    /// The schema of a root by a builder, as the words behind it say. Where they can't be read,
    /// that is noted.
    pub fn build_by<'t>(
        &self,
        builder: &str,
        root: ShapeId,
        answer: &mut Answer<'t>,
    ) -> Result<Schema<'c>, SchemaError<'c>>
    where
        't: 'c,
    {
        let (alloc, shapes) = (answer.alloc, self.shapes);
        if !shapes.has(root) {
            return Err(SchemaError::OutOfMemory);
        }
        match builder {
            "" => Schema::build(alloc, shapes, root),
            "external" => Schema::build_externally_tagged(alloc, shapes, root),
            "auto" => Schema::build_auto(alloc, shapes, root),
            "dom" => Schema::build_dom(alloc, shapes, root),
            "format" => Schema::build_with_format(alloc, shapes, root, format(answer)),
            "with" => Schema::build_with_repr(alloc, shapes, root, asked(answer)),
            "counted" => {
                let asked = Some(asked(answer));
                let steps = &mut Steps::new();
                Schema::build_counted(alloc, shapes, root, asked, Format::Flat, steps)
            }
            _ => {
                answer.unread();
                Err(SchemaError::OutOfMemory)
            }
        }
    }

    fn count(&self, answer: &mut Answer<'_>) {
        let root = self.id(answer);
        let asked = match answer.next_word() {
            "" => Some(EnumRepr::Flattened),
            "with" => Some(asked(answer)),
            "auto" => None,
            _ => {
                answer.unread();
                None
            }
        };
        if !self.shapes.has(root) {
            return;
        }
        match Schema::resolution_count(answer.alloc, self.shapes, root, asked) {
            Ok(Some(count)) => answer.add_value(&count),
            Ok(None) => answer.add("none"),
            Err(AllocError) => answer.refused(),
        }
    }

    fn representation(&self, answer: &mut Answer<'_>) {
        let Some(shape) = self.shape(answer) else {
            return;
        };
        match EnumRepr::from_shape(shape) {
            EnumRepr::Flattened => answer.add("flattened"),
            EnumRepr::ExternallyTagged => answer.add("external"),
            EnumRepr::InternallyTagged { tag } => answer.add_all(&["internal", tag]),
            EnumRepr::AdjacentlyTagged { tag, content } => {
                answer.add_all(&["adjacent", tag, content]);
            }
        }
    }

    fn score(&self, answer: &mut Answer<'_>) {
        if let Some(shape) = self.shape(answer) {
            answer.add_value(&specificity_score(shape));
        }
    }

    /// The format of a variant of an enum, and what it expects.
    fn variant(&self, answer: &mut Answer<'_>) {
        let shape = self.shape(answer);
        let name = answer.word();
        if let Some(variant) = variant_of(shape, name) {
            let format = VariantFormat::from_variant(self.shapes, variant);
            self.add_format(format, answer);
            answer.put(",");
            answer.add(expected(&format));
        } else {
            answer.unread();
        }
    }

    fn add_format(&self, format: VariantFormat, answer: &mut Answer<'_>) {
        match format {
            VariantFormat::Unit => answer.add("unit"),
            VariantFormat::Struct => answer.add("struct"),
            VariantFormat::Tuple { arity } => {
                answer.add("tuple");
                answer.add_value(&arity);
            }
            VariantFormat::NewtypeScalar { inner_shape } => {
                self.add_newtype("scalar", inner_shape, answer);
            }
            VariantFormat::NewtypeStruct { inner_shape } => {
                self.add_newtype("struct", inner_shape, answer);
            }
            VariantFormat::NewtypeSequence { inner_shape } => {
                self.add_newtype("sequence", inner_shape, answer);
            }
            VariantFormat::NewtypeOther { inner_shape } => {
                self.add_newtype("other", inner_shape, answer);
            }
            VariantFormat::NewtypeTuple { inner_shape, arity } => {
                self.add_newtype("tuple", inner_shape, answer);
                answer.add_value(&arity);
            }
        }
    }

    fn add_newtype(&self, class: &str, inner_shape: ShapeId, answer: &mut Answer<'_>) {
        answer.add_all(&["newtype", class, self.name(inner_shape)]);
    }

    fn variants(&self, answer: &mut Answer<'_>) {
        let id = self.id(answer);
        match VariantsByFormat::from_shape(answer.alloc, self.shapes, id) {
            Ok(Some(groups)) => self.list(&groups, answer),
            Ok(None) => answer.add("no enum"),
            Err(AllocError) => answer.refused(),
        }
    }

    /// One of the lists of an enum's variants, each with its type, or else another list.
    fn list(&self, groups: &VariantsByFormat<'_>, answer: &mut Answer<'_>) {
        let list = match answer.word() {
            "scalar" => &groups.scalar_variants,
            "bool" => &groups.bool_variants,
            "int" => &groups.int_variants,
            "float" => &groups.float_variants,
            "string" => &groups.string_variants,
            list => {
                add_other_list(groups, list, answer);
                return;
            }
        };
        for (variant, shape) in list {
            answer.add_all(&[variant.name.as_str(), self.name(*shape)]);
        }
    }
}

fn add_other_list(groups: &VariantsByFormat<'_>, list: &str, answer: &mut Answer<'_>) {
    let list = match list {
        "unit" => &groups.unit_variants,
        "struct" => &groups.struct_variants,
        "other" => &groups.other_variants,
        "tuple" => return add_sized(&groups.tuple_variants, answer),
        "arity" => return add_of_arity(groups, answer),
        "any" => return add_kinds(groups, answer),
        _ => return answer.unread(),
    };
    add_names(list, answer);
}

fn variant_of<'c>(shape: Option<&'c Shape>, name: &str) -> Option<&'c Variant> {
    let ShapeKind::Enum { variants } = &shape?.kind else {
        return None;
    };
    for variant in variants {
        if variant.name.as_str() == name {
            return Some(variant);
        }
    }
    None
}

/// Tells the names of variants.
pub fn add_names(variants: &[&Variant], answer: &mut Answer<'_>) {
    for variant in variants {
        answer.add(variant.name.as_str());
    }
}

fn add_sized(variants: &[(&Variant, usize)], answer: &mut Answer<'_>) {
    for (variant, arity) in variants {
        answer.add(variant.name.as_str());
        answer.add_value(arity);
    }
}

fn add_of_arity(groups: &VariantsByFormat<'_>, answer: &mut Answer<'_>) {
    let arity = answer.number();
    match groups.tuple_variants_with_arity(answer.alloc, arity) {
        Ok(variants) => add_names(&variants, answer),
        Err(AllocError) => answer.refused(),
    }
}

fn add_kinds(groups: &VariantsByFormat<'_>, answer: &mut Answer<'_>) {
    if groups.has_scalar_variants() {
        answer.add("scalar");
    }
    if groups.has_tuple_variants() {
        answer.add("tuple");
    }
    if groups.has_struct_variants() {
        answer.add("struct");
    }
}

fn expected(format: &VariantFormat) -> &'static str {
    if format.expects_scalar() {
        "a scalar"
    } else if format.expects_sequence() {
        "a sequence"
    } else if format.expects_mapping() {
        "a mapping"
    } else if format.is_unit() {
        "no value"
    } else {
        "any value"
    }
}

const BUILDERS: [&str; 6] = ["external", "auto", "dom", "format", "with", "counted"];

/// Whether a word names a builder.
pub fn is_builder(word: &str) -> bool {
    for builder in &BUILDERS {
        if *builder == word {
            return true;
        }
    }
    false
}

const FORMATS: [(&str, Format); 2] = [("flat", Format::Flat), ("dom", Format::Dom)];

/// The next word as a format.
fn format(answer: &mut Answer<'_>) -> Format {
    let word = answer.word();
    answer.meaning(&FORMATS, word, Format::Flat)
}

/// The representation that the next words ask for.
pub fn asked<'t>(answer: &mut Answer<'t>) -> EnumRepr<'t> {
    match answer.word() {
        "flattened" => EnumRepr::Flattened,
        "external" => EnumRepr::ExternallyTagged,
        "internal" => EnumRepr::InternallyTagged { tag: answer.word() },
        "adjacent" => EnumRepr::AdjacentlyTagged {
            tag: answer.word(),
            content: answer.word(),
        },
        _ => {
            answer.unread();
            EnumRepr::Flattened
        }
    }
}

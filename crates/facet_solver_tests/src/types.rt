//! The types that a transcript declares, each on a line.

use crate::answer::{Answer, Line};
use crate::words::{assigned, meaning, plain};
use facet_solver::{DomMark, Field, ScalarType, Shape, ShapeId, ShapeKind, StructKind, Variant};
use std::alloc::{AllocError, Global};
use std::str::SplitWhitespace;

const KEYWORDS: [&str; 12] = [
    "struct", "enum", "option", "pointer", "opaque", "list", "array", "slice", "set", "map",
    "dynamic", "other",
];

/// Whether a line that begins with the word declares a type.
pub fn declares(keyword: &str) -> bool {
    position(&KEYWORDS, keyword).is_some()
}

/// The place of a name, or the place that a word as `#3` says.
pub fn place_of(names: &[&str], word: &str) -> Option<ShapeId> {
    let place = match word.strip_prefix('#') {
        Some(place) => place.parse::<usize>().ok(),
        None => position(names, word),
    };
    Some(ShapeId::new(place?))
}

fn position(names: &[&str], word: &str) -> Option<usize> {
    for index in 0..names.len() {
        if names[index] == word {
            return Some(index);
        }
    }
    None
}

/// The types so far, each at its place, and their names.
#[derive(Drop)]
pub struct Types<'t> {
    pub names: Vec<&'t str>,
    pub shapes: Vec<Shape>,
    /// The number in place of `#` in the names of a variant that stands for many.
    number: usize,
}

/// What stands before the body of a type.
#[derive(Clone, Copy)]
struct Attributes<'t> {
    inner: Option<ShapeId>,
    proxy: Option<ShapeId>,
    tag: Option<&'t str>,
    content: Option<&'t str>,
    untagged: bool,
    container: bool,
    opening: &'t str,
}

impl Attributes<'_> {
    const NONE: Attributes<'static> = Attributes {
        inner: None,
        proxy: None,
        tag: None,
        content: None,
        untagged: false,
        container: false,
        opening: "",
    };
}

impl<'t> Types<'t> {
    /// No types yet.
    pub fn new(alloc: Global) -> Self {
        Types {
            names: Vec::new(alloc),
            shapes: Vec::new(alloc),
            number: 0,
        }
    }

    /// Adds the type that a line declares.
    pub fn declare(&mut self, line: Line<'t>, answer: &mut Answer<'t>) {
        answer.begin(line);
        answer.words = line.text.split_whitespace();
        let keyword = answer.word();
        let name = answer.word();
        let attributes = self.attributes(answer);
        let kind = self.kind(keyword, attributes.opening, answer);
        self.put(name, attributes, kind, answer);
        if answer.words.next().is_some() {
            answer.unread();
        }
    }

    fn put(
        &mut self,
        name: &'t str,
        attributes: Attributes<'t>,
        kind: ShapeKind,
        answer: &mut Answer<'t>,
    ) {
        let shape = Shape {
            type_identifier: answer.copied(name),
            kind,
            inner: attributes.inner,
            proxy: attributes.proxy,
            tag: copied_if(attributes.tag, answer),
            content: copied_if(attributes.content, answer),
            untagged: attributes.untagged,
            metadata_container: attributes.container,
        };
        answer.push(&mut self.shapes, shape);
        answer.push(&mut self.names, name);
    }

    /// The place that a word names. A scalar is declared where it is named first.
    fn id(&mut self, word: &'t str, answer: &mut Answer<'t>) -> ShapeId {
        if let Some(id) = place_of(&self.names, word) {
            return id;
        }
        let id = ShapeId::new(self.shapes.len());
        match meaning(&SCALARS, word) {
            Some(scalar) => self.put(word, Attributes::NONE, ShapeKind::Scalar(scalar), answer),
            None => answer.unread(),
        }
        id
    }

    fn next_id(&mut self, answer: &mut Answer<'t>) -> ShapeId {
        let word = plain(answer.word());
        self.id(word, answer)
    }

    fn attributes(&mut self, answer: &mut Answer<'t>) -> Attributes<'t> {
        let mut attributes = Attributes::NONE;
        for _ in 0..usize::MAX {
            let word = answer.next_word();
            let (name, value) = assigned(word);
            match name {
                "tag" => attributes.tag = Some(value),
                "content" => attributes.content = Some(value),
                "inner" => attributes.inner = Some(self.id(value, answer)),
                "proxy" => attributes.proxy = Some(self.id(value, answer)),
                "untagged" => attributes.untagged = true,
                "container" => attributes.container = true,
                _ => {
                    attributes.opening = word;
                    break;
                }
            }
        }
        attributes
    }

    fn kind(&mut self, keyword: &str, opening: &str, answer: &mut Answer<'t>) -> ShapeKind {
        match keyword {
            "struct" => {
                let kind = body_kind(opening, answer);
                let fields = self.fields(kind, answer);
                ShapeKind::Struct { kind, fields }
            }
            "enum" => {
                let variants = self.variants(answer);
                ShapeKind::Enum { variants }
            }
            "map" => ShapeKind::Map(self.next_id(answer), self.next_id(answer)),
            "opaque" => ShapeKind::Pointer(None),
            "dynamic" => ShapeKind::DynamicValue,
            "other" => ShapeKind::Other,
            _ => kind_over(keyword, self.next_id(answer)),
        }
    }

    fn variants(&mut self, answer: &mut Answer<'t>) -> Vec<Variant> {
        let mut variants = Vec::new(answer.alloc);
        for _ in 0..usize::MAX {
            let name = answer.word();
            match name.strip_prefix("times=") {
                Some(times) => self.add_variants(times, &mut variants, answer),
                None if name == "}" || name.is_empty() => break,
                None => self.add_variant(name, &mut variants, answer),
            }
        }
        variants
    }

    /// Adds the next variant so many times, each time with its number in its names.
    fn add_variants(&mut self, times: &str, variants: &mut Vec<Variant>, answer: &mut Answer<'t>) {
        let words = same_words(&answer.words);
        for number in 0..answer.number_of(times) {
            answer.words = same_words(&words);
            self.number = number;
            let name = answer.word();
            self.add_variant(name, variants, answer);
        }
    }

    /// A name with a comma behind it stands for a unit variant.
    fn add_variant(&mut self, name: &'t str, variants: &mut Vec<Variant>, answer: &mut Answer<'t>) {
        let (name, kind) = match name.strip_suffix(',') {
            Some(name) => (name, StructKind::Unit),
            None => (name, body_kind(answer.word(), answer)),
        };
        self.put_name(name, answer);
        let variant = Variant {
            name: answer.take(),
            kind,
            fields: self.fields(kind, answer),
        };
        answer.push(variants, variant);
    }

    /// The fields of a body, up to the bracket that closes it.
    fn fields(&mut self, kind: StructKind, answer: &mut Answer<'t>) -> Vec<Field> {
        let mut fields = Vec::new(answer.alloc);
        if kind == StructKind::Unit {
            return fields;
        }
        let mut marks = Marks::NONE;
        for _ in 0..usize::MAX {
            let word = plain(answer.word());
            if matches!(word, "}" | ")" | "]" | "") {
                break;
            }
            if !marks.take(word, answer) {
                self.add_fields(&mut fields, marks, word, answer);
                marks = Marks::NONE;
            }
        }
        fields
    }

    /// Adds a field with a name, as `x: u8`, or one that goes by its number, as `u8`.
    fn add_fields(
        &mut self,
        fields: &mut Vec<Field>,
        marks: Marks<'t>,
        word: &'t str,
        answer: &mut Answer<'t>,
    ) {
        let (name, shape) = match word.strip_suffix(':') {
            Some(name) => (name, self.next_id(answer)),
            None => ("", self.id(word, answer)),
        };
        for index in 0..marks.times.unwrap_or(1) {
            self.put_name(name, answer);
            if name.is_empty() {
                answer.put_value(&fields.len());
            } else if marks.times.is_some() {
                answer.put_value(&index);
            }
            self.add_field(fields, marks, shape, answer);
        }
    }

    /// Adds a field whose name is the text so far.
    fn add_field(
        &self,
        fields: &mut Vec<Field>,
        marks: Marks<'t>,
        shape: ShapeId,
        answer: &mut Answer<'t>,
    ) {
        let field = Field {
            name: answer.take(),
            rename: self.renamed(marks.rename, answer),
            shape,
            flattened: marks.flattened,
            has_default: marks.has_default,
            metadata: marks.metadata,
            dom: marks.dom,
        };
        answer.push(fields, field);
    }

    fn renamed(&self, rename: Option<&'t str>, answer: &mut Answer<'t>) -> Option<String> {
        self.put_name(rename?, answer);
        Some(answer.take())
    }

    /// Puts a name, with the number in place of `#`.
    fn put_name(&self, name: &str, answer: &mut Answer<'t>) {
        match name.split_once('#') {
            Some((before, behind)) => {
                answer.put(before);
                answer.put_value(&self.number);
                answer.put(behind);
            }
            None => answer.put(name),
        }
    }
}

/// What stands before a field.
#[derive(Clone, Copy)]
struct Marks<'t> {
    flattened: bool,
    has_default: bool,
    metadata: bool,
    dom: DomMark,
    rename: Option<&'t str>,
    times: Option<usize>,
}

impl<'t> Marks<'t> {
    const NONE: Marks<'static> = Marks {
        flattened: false,
        has_default: false,
        metadata: false,
        dom: DomMark::None,
        rename: None,
        times: None,
    };

    /// Takes a word in, if it is a mark.
    fn take(&mut self, word: &'t str, answer: &mut Answer<'t>) -> bool {
        let (name, value) = assigned(word);
        match name {
            "flat" => self.flattened = true,
            "default" => self.has_default = true,
            "metadata" => self.metadata = true,
            "rename" => self.rename = Some(value),
            "times" => self.times = Some(answer.number_of(value)),
            _ => match meaning(&DOM_MARKS, name) {
                Some(mark) => self.dom = mark,
                None => return false,
            },
        }
        true
    }
}

fn copied_if(text: Option<&str>, answer: &mut Answer<'_>) -> Option<String> {
    Some(answer.copied(text?))
}

fn same_words<'t>(words: &SplitWhitespace<'t>) -> SplitWhitespace<'t> {
    let same: Result<SplitWhitespace<'t>, AllocError> = words.clone();
    same.unwrap()
}

const DOM_MARKS: [(&str, DomMark); 5] = [
    ("attribute", DomMark::Attribute),
    ("element", DomMark::Element),
    ("text", DomMark::Text),
    ("tag", DomMark::Tag),
    ("elements", DomMark::Elements),
];

const BODIES: [(&str, StructKind); 4] = [
    ("{", StructKind::Struct),
    ("(", StructKind::TupleStruct),
    ("[", StructKind::Tuple),
    ("", StructKind::Unit),
];

fn body_kind(opening: &str, answer: &mut Answer<'_>) -> StructKind {
    answer.meaning(&BODIES, opening, StructKind::Unit)
}

fn kind_over(keyword: &str, of: ShapeId) -> ShapeKind {
    match keyword {
        "option" => ShapeKind::Option(of),
        "pointer" => ShapeKind::Pointer(Some(of)),
        "list" => ShapeKind::List(of),
        "array" => ShapeKind::Array(of),
        "slice" => ShapeKind::Slice(of),
        _ => ShapeKind::Set(of),
    }
}

const SCALARS: [(&str, ScalarType); 21] = [
    ("()", ScalarType::Unit),
    ("bool", ScalarType::Bool),
    ("char", ScalarType::Char),
    ("&str", ScalarType::Str),
    ("String", ScalarType::String),
    ("Cow<str>", ScalarType::CowStr),
    ("f32", ScalarType::F32),
    ("f64", ScalarType::F64),
    ("u8", ScalarType::U8),
    ("u16", ScalarType::U16),
    ("u32", ScalarType::U32),
    ("u64", ScalarType::U64),
    ("u128", ScalarType::U128),
    ("usize", ScalarType::USize),
    ("i8", ScalarType::I8),
    ("i16", ScalarType::I16),
    ("i32", ScalarType::I32),
    ("i64", ScalarType::I64),
    ("i128", ScalarType::I128),
    ("isize", ScalarType::ISize),
    ("Instant", ScalarType::Other),
];

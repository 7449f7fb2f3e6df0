//! The cases of names.
ghost use Rattle.std.specs.Prelude.{◌≡◌, ◌<◌, ◌++◌, [], ◌∷◌, OnOk, IfOk, option_map, IsAscii};
ghost use Rattle.std.specs.Bool.{OnTrue};
ghost use Rattle.std.specs.String.{string_bytes};
ghost use Rattle.facet_solver_types.specs.Cases as cases;

use std::alloc::{AllocError, Global};

/// A way to write names of several words.
///
/// A variant's name has the words large as in `PascalCase`, and a field's has them small with `_`
/// between.
#[derive(Clone, Copy, PartialEq, Eq, Debug)]
pub enum Case {
    /// `lowercase`
    Lower,
    /// `UPPERCASE`
    Upper,
    /// `PascalCase`
    Pascal,
    /// `camelCase`
    Camel,
    /// `snake_case`
    Snake,
    /// `SCREAMING_SNAKE_CASE`
    ScreamingSnake,
    /// `kebab-case`
    Kebab,
    /// `SCREAMING-KEBAB-CASE`
    ScreamingKebab,
}

impl Case {
    /// The case whose name is so written in itself, as `snake_case`; `None` for another text.
    pub fn named(text: &str) -> Option<Case>
        ensures { result ≡ cases.named text.now }
    {
        match text {
            "lowercase" => Some(Case::Lower),
            "UPPERCASE" => Some(Case::Upper),
            "PascalCase" => Some(Case::Pascal),
            "camelCase" => Some(Case::Camel),
            "snake_case" => Some(Case::Snake),
            "SCREAMING_SNAKE_CASE" => Some(Case::ScreamingSnake),
            "kebab-case" => Some(Case::Kebab),
            "SCREAMING-KEBAB-CASE" => Some(Case::ScreamingKebab),
            _ => None,
        }
    }

    /// The name of a variant in this case; `None` where the name isn't ASCII.
    ///
    /// The only error is out of memory.
    pub fn apply_to_variant(self, alloc: Global, name: &str) -> Result<Option<String>, AllocError>
        ensures { IfOk result (λ made. option_map string_bytes made
            ≡ cases.apply_to_variant self name.now) }
    {
        if !is_ascii(name) {
            return Ok(None);
        }
        Ok(Some(variant_in(self, alloc, name)?))
    }

    /// The name of a field in this case; `None` where the name isn't ASCII.
    ///
    /// The only error is out of memory.
    pub fn apply_to_field(self, alloc: Global, name: &str) -> Result<Option<String>, AllocError>
        ensures { IfOk result (λ made. option_map string_bytes made
            ≡ cases.apply_to_field self name.now) }
    {
        if !is_ascii(name) {
            return Ok(None);
        }
        Ok(Some(field_in(self, alloc, name)?))
    }
}

/// Whether every letter of a name is one of ASCII.
fn is_ascii(name: &str) -> bool
    ensures value { result ≡ cases.is_ascii_name name.now }
    ensures ascii { OnTrue result (IsAscii name.now) }
{
    name.bytes().all(|byte| byte.is_ascii())
}

/// The name of a variant in a case.
fn variant_in(case: Case, alloc: Global, name: &str) -> Result<String, AllocError>
    requires { IsAscii name.now }
    ensures { IfOk result (λ text. string_bytes text ≡ cases.variant_in case name.now) }
{
    match case {
        Case::Lower => name.to_ascii_lowercase(alloc),
        Case::Upper => name.to_ascii_uppercase(alloc),
        Case::Pascal => String::from_str(alloc, name),
        Case::Camel => small_first(alloc, name),
        Case::Snake => snake(alloc, name),
        Case::ScreamingSnake => snake(alloc, name)?.to_ascii_uppercase(alloc),
        Case::Kebab => kebab(alloc, &snake(alloc, name)?),
        Case::ScreamingKebab => kebab(alloc, &snake(alloc, name)?)?.to_ascii_uppercase(alloc),
    }
}

/// The name of a field in a case.
fn field_in(case: Case, alloc: Global, name: &str) -> Result<String, AllocError>
    requires { IsAscii name.now }
    ensures { IfOk result (λ text. string_bytes text ≡ cases.field_in case name.now) }
{
    match case {
        Case::Lower => String::from_str(alloc, name),
        Case::Upper => name.to_ascii_uppercase(alloc),
        Case::Pascal => pascal(alloc, name),
        Case::Camel => small_first(alloc, &pascal(alloc, name)?),
        Case::Snake => String::from_str(alloc, name),
        Case::ScreamingSnake => name.to_ascii_uppercase(alloc),
        Case::Kebab => kebab(alloc, name),
        Case::ScreamingKebab => kebab(alloc, name)?.to_ascii_uppercase(alloc),
    }
}

/// Puts an ASCII letter at the end of a text.
fn push_ascii(text: &mut String, letter: u8) -> Result<(), AllocError>
    requires { letter < 128 }
    ensures value { OnOk result (string_bytes text.new ≡ string_bytes text.old ++ letter ∷ []) }
    ensures ascii { IsAscii (string_bytes text.old)
        → OnOk result (IsAscii (string_bytes text.new)) }
{
    text.push(char::from(letter))
}

/// A name with its first letter small.
fn small_first(alloc: Global, name: &str) -> Result<String, AllocError>
    requires { IsAscii name.now }
    ensures { IfOk result (λ text. string_bytes text ≡ cases.small_first name.now) }
{
    let mut text = String::new(alloc);
    if let Some((first, rest)) = name.as_bytes().split_first() {
        push_ascii(&mut text, first.to_ascii_lowercase())?;
        for letter in rest {
            push_ascii(&mut text, *letter)?;
        }
    }
    Ok(text)
}

/// A name with all letters small, and a `_` before each that was large, but the first.
fn snake(alloc: Global, name: &str) -> Result<String, AllocError>
    requires { IsAscii name.now }
    ensures ascii { IfOk result (λ text. IsAscii (string_bytes text)) }
    ensures value { IfOk result (λ text. string_bytes text ≡ cases.snake name.now) }
{
    let mut text = String::new(alloc);
    if let Some((first, rest)) = name.as_bytes().split_first() {
        push_ascii(&mut text, first.to_ascii_lowercase())?;
        for letter in rest {
            push_small_apart(&mut text, *letter)?;
        }
    }
    Ok(text)
}

/// Puts a letter at the end of a text, small, behind a `_` if it was large.
fn push_small_apart(text: &mut String, letter: u8) -> Result<(), AllocError>
    requires { letter < 128 }
    ensures value { OnOk result
        (string_bytes text.new ≡ string_bytes text.old ++ cases.small_apart letter) }
    ensures ascii { IsAscii (string_bytes text.old)
        → OnOk result (IsAscii (string_bytes text.new)) }
{
    if letter.is_ascii_uppercase() {
        push_ascii(text, b'_')?;
    }
    push_ascii(text, letter.to_ascii_lowercase())
}

/// A name without its `_`, with the letter behind each large, and the first.
fn pascal(alloc: Global, name: &str) -> Result<String, AllocError>
    requires { IsAscii name.now }
    ensures ascii { IfOk result (λ text. IsAscii (string_bytes text)) }
    ensures value { IfOk result (λ text. string_bytes text ≡ cases.pascal name.now) }
{
    let mut text = String::new(alloc);
    let mut before = b'_';
    for letter in name.as_bytes() {
        push_behind(&mut text, before, *letter)?;
        before = *letter;
    }
    Ok(text)
}

/// Puts a letter that stands behind another at the end of a text: no `_`, and large behind a `_`.
fn push_behind(text: &mut String, before: u8, letter: u8) -> Result<(), AllocError>
    requires { letter < 128 }
    ensures value { OnOk result
        (string_bytes text.new ≡ string_bytes text.old ++ cases.letter_behind before letter) }
    ensures ascii { IsAscii (string_bytes text.old)
        → OnOk result (IsAscii (string_bytes text.new)) }
{
    if letter == b'_' {
        return Ok(());
    }
    if before == b'_' {
        push_ascii(text, letter.to_ascii_uppercase())
    } else {
        push_ascii(text, letter)
    }
}

/// A name with `-` for each `_`.
fn kebab(alloc: Global, name: &str) -> Result<String, AllocError>
    requires { IsAscii name.now }
    ensures { IfOk result (λ text. string_bytes text ≡ cases.kebab name.now) }
{
    let mut text = String::new(alloc);
    for letter in name.as_bytes() {
        push_ascii(&mut text, if *letter == b'_' { b'-' } else { *letter })?;
    }
    Ok(text)
}

//! What to write where an attribute cannot be said.
ghost use Rattle.std.specs.Prelude.{◌≡◌, option_map};
ghost use Rattle.facet_solver_types.specs.Helps.{bare, help_for};

/// A word without the `r#` that makes it raw.
fn bare(word: &str) -> &str
    ensures { result.now ≡ bare word.now }
{
    word.strip_prefix("r#").unwrap_or(word)
}

/// What to write in the place of an attribute that cannot be said, or beside it, by its word.
pub(super) fn help_for(word: &str) -> Option<&'static str>
    ensures { option_map (λ help. help.now) result ≡ help_for word.now }
{
    match bare(word) {
        "alias" => Some("write the one name that documents have"),
        "other" => Some("write each variant"),
        "with" | "deserialize_with" | "serde_as" => Some(
            "write the type that it is read as, as in proxy = String",
        ),
        "remote" => Some("declare the type itself"),
        "field_identifier" | "variant_identifier" => Some("write an enum of unit variants"),
        "is_numeric" => Some("write each variant by its name"),
        "opaque" => Some("write proxy = T beside it"),
        "flatten" => Some("write it in #[serde(..)]"),
        "untagged" => Some("write it in #[serde(..)], on an enum"),
        _ => None,
    }
}

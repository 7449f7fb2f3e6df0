//! Laws of printed declarations: each is the contract of a function that does nothing.
ghost use Rattle.std.specs.Prelude.{◌≡◌, ◌<◌, ◌≤◌, ◌^◌, ℕ, List, Some, IsTrue, length, slice_get};
ghost use Rattle.std.specs.Str.{IsUtf8};
ghost use Rattle.facet_solver_shape.specs.Catalogues.{RepeatsName};
ghost use Rattle.facet_solver_shape.specs.Names.{Name};
ghost use Rattle.facet_solver_types.specs.Literals.{quoted_value};
ghost use Rattle.facet_solver_types.specs.PrintedNames.{variant_name};
ghost use Rattle.facet_solver_types.specs.PrintedTexts.{between_quotes, is_plain_name};

/// What is printed between quotes says the text.
pub fn printed_texts_are_read_back()
    ensures { (text : Name) → IsUtf8 text → quoted_value (between_quotes text) ≡ Some text }
{}

/// Each variant is declared under a name of ASCII letters, and no two of an enum under the same,
/// where no two have one name.
pub fn variants_are_declared_apart()
    ensures named { (names : List Name) (number : ℕ) (name : Name) → number < 2 ^ 64
        → IsTrue (is_plain_name (variant_name names number name)) }
    ensures apart { (names : List Name) → length names ≤ 2 ^ 64 → ¬ RepeatsName names
        → (i j : ℕ) (x y : Name) → slice_get names i ≡ Some x → slice_get names j ≡ Some y
        → variant_name names i x ≡ variant_name names j y → i ≡ j }
{}

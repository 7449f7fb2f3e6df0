//! Laws of indices of shapes, paths, keys and fields: each is the contract of a function that does
//! nothing.
ghost use Rattle.std.specs.Prelude.{◌≡◌, ◌↔◌, ◌<◌, ℕ, List, Bool, Some, All, IsTrue, find};
ghost use Rattle.std.specs.Cmp.{IsTotalOrder};
ghost use Rattle.std.specs.Cmp.Lexicographic.{slice_cmp};
ghost use Rattle.std.specs.FinMap as finite;
ghost use Rattle.std.specs.Hash.{usize};
ghost use Rattle.std.specs.Ordering.{nat_cmp};
ghost use Rattle.std.specs.declared.cmp.Ordering.TheVariants.{Less, Equal};
ghost use Rattle.facet_solver_shape.specs.Keys.{Key, key_cmp, key_of, flat_key, dom_key, category_index};
ghost use Rattle.facet_solver_shape.specs.Fields.{IsLeastIfAny, matches, has_name, FieldView, IsStored};
ghost use Rattle.facet_solver_shape.specs.Names.{Name};
ghost use Rattle.facet_solver_shape.specs.Paths.{path_eq, Segment};
ghost use Rattle.facet_solver_shape.specs.contracts.resolution.key.FieldKeyOrd.TheImpl as derived;
ghost use Rattle.facet_solver_shape.specs.contracts.resolution.key.FieldKeyPartialEq.TheImpl as equality;
ghost use Rattle.facet_solver_shape.specs.contracts.shape.identifier.ShapeIdHash.TheImpl as id_hash;
ghost use Rattle.facet_solver_shape.specs.contracts.shape.identifier.ShapeIdOrd.TheImpl as id_order;
ghost use Rattle.facet_solver_shape.specs.contracts.shape.identifier.ShapeIdPartialEq.TheImpl as id_equality;
ghost use Rattle.facet_solver_shape.specs.declared.resolution.key.FieldCategory.{FieldCategory as Category};
ghost use Rattle.facet_solver_shape.specs.declared.resolution.key.FieldCategory.TheVariants.{Flat};
ghost use Rattle.facet_solver_shape.specs.declared.resolution.key.FieldKey.{FieldKey as AnyKey};

/// Identifiers of shapes are equal exactly if their indices are, and are ordered and hashed as
/// these are. So equality, order and hash agree.
pub fn shape_ids_go_by_index()
    ensures equal { (a b : ℕ) → IsTrue ((id_equality.ghosts).eq a b) ↔ (a ≡ b) }
    ensures ordered { (a b : ℕ) → (id_order.ghosts).cmp a b ≡ nat_cmp a b }
    ensures hashed { (a : ℕ) → (id_hash.ghosts).hash_input a ≡ usize a }
{}

/// Two paths are equal exactly if their segments are.
pub fn paths_equal_by_segments()
    ensures { (a b : List Segment) → IsTrue (path_eq a b) ↔ (a ≡ b) }
{}

/// The order of keys agrees with `==` and is total, and has flat keys first, then categories in
/// their order, then names by their bytes.
///
/// `ties_are_eq` says that the order ties exactly the keys that `==` holds equal, and
/// `ties_are_equal` that these say the same.
pub fn keys_are_in_order()
    ensures derived { (a b : AnyKey)
        → (derived.ghosts).cmp a b ≡ key_cmp (key_of a) (key_of b) }
    ensures ties_are_eq { (a b : AnyKey)
        → ((derived.ghosts).cmp a b ≡ Equal) ↔ IsTrue ((equality.ghosts).eq a b) }
    ensures total { IsTotalOrder key_cmp }
    ensures ties_are_equal { (a b : Key) → key_cmp a b ≡ Equal → a ≡ b }
    ensures flat_first { (n m : Name) (c : Category)
        → key_cmp (flat_key n) (dom_key c m) ≡ Less }
    ensures by_category { (c d : Category) (n m : Name)
        → category_index c < category_index d → key_cmp (dom_key c n) (dom_key d m) ≡ Less }
    ensures by_name { (c : Category) (n m : Name)
        → key_cmp (dom_key c n) (dom_key c m) ≡ slice_cmp nat_cmp n m }
    ensures flat_by_name { (n m : Name)
        → key_cmp (flat_key n) (flat_key m) ≡ slice_cmp nat_cmp n m }
{}

/// Of fields that stand under their stored keys, the first that passes a test is that of least key.
pub fn first_is_least()
    ensures { (fields : finite.FinMap key_cmp FieldView) (test : FieldView → Bool)
        → All IsStored (finite.entries fields)
        → IsLeastIfAny fields test (find test (finite.values fields)) }
{}

/// Where all fields are of category Flat, each stands under the flat key of its name, so that no
/// two have one name, and a name or a key of any kind finds the field under the flat key of its
/// name.
pub fn flat_fields_go_by_name()
    ensures alone { (fields : finite.FinMap key_cmp FieldView)
        → All IsStored (finite.entries fields)
        → All (λ f. f.category ≡ Flat) (finite.values fields)
        → (k : Key) (f : FieldView) → finite.get fields k ≡ Some f → k ≡ flat_key f.name }
    ensures by_name { (fields : finite.FinMap key_cmp FieldView)
        → All IsStored (finite.entries fields)
        → All (λ f. f.category ≡ Flat) (finite.values fields)
        → (name : Name)
        → find (has_name name) (finite.values fields) ≡ finite.get fields (flat_key name) }
    ensures by_key { (fields : finite.FinMap key_cmp FieldView)
        → All IsStored (finite.entries fields)
        → All (λ f. f.category ≡ Flat) (finite.values fields)
        → (key : Key)
        → find (matches key) (finite.values fields) ≡ finite.get fields (flat_key key.name) }
{}

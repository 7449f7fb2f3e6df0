//! Laws of choices, walks, counts, told keys, calls and reports: each is the contract of a function
//! that does nothing.
ghost use Rattle.std.specs.Prelude.{◌≡◌, ◌≢◌, ◌↔◌, ◌++◌, ◌∷◌, [], ℕ, All, Contains, List, Option, Some, length, map, slice_get, true};
ghost use Rattle.std.specs.Cmp.Lexicographic.{slice_cmp};
ghost use Rattle.std.specs.List.{list_any};
ghost use Rattle.std.specs.List.Sorted.{IsStrictlySortedBy};
ghost use Rattle.std.specs.Ordering.{nat_cmp};
ghost use Rattle.facet_solver_shape.specs.Catalogues.{IsChecked};
ghost use Rattle.facet_solver_shape.specs.Names.{Name};
ghost use Rattle.facet_solver_shape.specs.Resolved.{Resolved, description};
ghost use Rattle.std.specs.FinMap as finite;
ghost use Rattle.facet_solver_shape.specs.declared.resolution.key.FieldCategory.TheVariants.{Flat as FlatCategory};
ghost use Rattle.facet_solver_shape.specs.declared.shape.Field.{Field};
ghost use Rattle.facet_solver_shape.specs.declared.shape.Variant.{Variant};
ghost use Rattle.facet_solver.specs.build.Choice.{IsChoice, IsChoiceDuplicate, IsResolution, ListsChoices, Enumerates, GoesByName};
ghost use Rattle.facet_solver.specs.build.Count.{IsCountOf, below_2_64, count_fields, count_fields_step, count_of_root};
ghost use Rattle.facet_solver.specs.solver.ByName.{is_viable_by_name, missing_by_name, unknown_by_name};
ghost use Rattle.facet_solver.specs.solver.Failure.{missing};
ghost use Rattle.facet_solver.specs.build.Place.{Path};
ghost use Rattle.facet_solver.specs.declared.build.format.Format.TheVariants.{Dom, Flat};
ghost use Rattle.facet_solver.specs.build.Nested.{nested_paths, flattened_paths, variant_paths};
ghost use Rattle.facet_solver.specs.build.Nested.{content_paths_of_shape, content_paths};
ghost use Rattle.facet_solver.specs.build.Nested.{FollowsKinds, EndsByLength, HasNoGaps};
ghost use Rattle.facet_solver.specs.build.Build.{Build, Catalogue};
ghost use Rattle.facet_solver_shape.specs.EffectiveShapes.{effective, go_on, next_inside};
ghost use Rattle.facet_solver.specs.build.Walk.{walk_fields, walk_fields_step};
ghost use Rattle.facet_solver_shape.specs.Fields.{key_of_field, matches};
ghost use Rattle.facet_solver_shape.specs.Keys.{Key, key_cmp};
ghost use Rattle.facet_solver.specs.solver.KeyResult.{key_result, unknown};
ghost use Rattle.facet_solver.specs.Probing as probing;
ghost use Rattle.facet_solver.specs.schema.Schema.{IsOwnBuild, SchemaView};
ghost use Rattle.facet_solver.specs.solver.Pairs.{CanBothBeViable, HasKeysRequiredBy, LeavesBothViable};
ghost use Rattle.facet_solver.specs.solver.Run.{CallView, after_call, after_calls};
ghost use Rattle.facet_solver.specs.solver.ShapeAtPath.{satisfy_at_path};
ghost use Rattle.facet_solver.specs.solver.State.{State, mark_seen, new_solver, passing, satisfy, satisfy_shapes, see_key};
ghost use Rattle.facet_solver.specs.Resolutions.{has_key};
ghost use Rattle.facet_solver.specs.solver.Told.{accepted_keys, has_keys, indices_with, known_keys, see_keys};
ghost use Rattle.facet_solver.specs.solver.Told.{EndsWithOrNames, HasAllKnown, HaveSameKeys, LeavesSome, TellsChoice};
ghost use Rattle.facet_solver.specs.solver.Report.{disambiguating, is_viable, unknown_names, viable};

/// A root has one list of all choices, and at most one list of resolutions.
pub fn lists_are_the_only_ones()
    ensures choices { (build : Build) (root : ℕ) (cs ds : List (List ℕ))
        → ListsChoices build root cs → ListsChoices build root ds → cs ≡ ds }
    ensures resolutions { (build : Build) (root : ℕ) (rs ss : List Resolved)
        → Enumerates build root rs → Enumerates build root ss → rs ≡ ss }
{}

/// No choice begins another.
pub fn no_choice_begins_another()
    ensures { (build : Build) (root : ℕ) (c d : List ℕ)
        → IsChoice build root c → IsChoice build root (c ++ d) → d ≡ [] }
{}

/// A root that has a list of resolutions has no duplicate keys.
pub fn resolutions_exclude_duplicates()
    ensures { (build : Build) (root : ℕ) (rs : List Resolved)
        → Enumerates build root rs
        → (name : Name) (first second : Path) → ¬ IsChoiceDuplicate build root name first second }
{}

/// The list of all choices is as long as the number of choices.
pub fn all_choices_are_counted()
    ensures { (build : Build) (root : ℕ) (cs : List (List ℕ))
        → ListsChoices build root cs → length cs ≡ count_of_root build root }
{}

/// `Schema::resolution_count` gives the number of resolutions of a schema of the same catalogue,
/// root and representation, or `None` where that is 2^64 or more.
pub fn resolutions_are_counted()
    ensures { (schema : SchemaView) (answer : Option ℕ) → IsOwnBuild schema
        → IsCountOf schema.build.catalogue schema.root schema.build.representation answer
        → answer ≡ below_2_64 (length schema.resolutions) }
{}

/// The walk of fields is made of the walks of what is flattened into them, however deep the
/// catalogue is.
pub fn walks_follow_their_fields()
    ensures { (build : Build) → IsChecked build.catalogue
        → (fields : List Field) (place : Path) (indices : List ℕ)
        → walk_fields build fields place indices
        ≡ walk_fields_step (walk_fields build) build fields place indices }
{}

/// The number of choices at fields is made of the numbers at what is flattened into them, however
/// deep the catalogue is.
pub fn counts_follow_their_fields()
    ensures { (build : Build) → IsChecked build.catalogue
        → (fields : List Field)
        → count_fields build fields ≡ count_fields_step (count_fields build) build fields }
{}

/// The effective shape is that of `inner`, or else of `proxy`, or else the shape itself.
pub fn effective_shapes_follow_inner_and_proxy()
    ensures { (cat : Catalogue) → IsChecked cat
        → (id : ℕ) → effective cat id ≡ go_on (effective cat) id (next_inside (slice_get cat id)) }
{}

/// The five sets of nested key paths are made of one another by the kinds of shapes, however deep
/// the catalogue is.
pub fn nested_paths_follow_kinds()
    ensures follow { (cat : Catalogue) → IsChecked cat → FollowsKinds cat }
    ensures ends { (cat : Catalogue) → IsChecked cat → EndsByLength cat }
{}

/// No nested key path is empty, and each that a longer one goes through is one too.
pub fn nested_paths_have_no_gaps()
    ensures nested { (cat : Catalogue) (id : ℕ) → HasNoGaps (nested_paths cat id) }
    ensures flattened { (cat : Catalogue) (id : ℕ) → HasNoGaps (flattened_paths cat id) }
    ensures variants { (cat : Catalogue) (v : Variant) → HasNoGaps (variant_paths cat v) }
    ensures content_of_shape { (cat : Catalogue) (id : ℕ)
        → HasNoGaps (content_paths_of_shape cat id) }
    ensures content { (cat : Catalogue) (v : Variant) → HasNoGaps (content_paths cat v) }
{}

/// In the flat format the fields of a resolution stand under their names alone, so that no two have
/// one name.
pub fn flat_fields_go_by_name()
    ensures { (build : Build) (root : ℕ) (choice : List ℕ) (r : Resolved)
        → build.format ≡ Flat → IsResolution build root choice r → GoesByName r }
{}

/// In documents of attributes and elements each field of a resolution has a category of its own.
pub fn dom_fields_have_categories()
    ensures { (build : Build) (root : ℕ) (choice : List ℕ) (r : Resolved)
        → build.format ≡ Dom → IsResolution build root choice r
        → All (λ f. f.category ≢ FlatCategory) (finite.values r.fields) }
{}

/// Keys that a new solver sees one after another leave the resolutions that have every accepted
/// key. A key is accepted where some resolution has it and all keys that were accepted before.
pub fn accepted_keys_decide()
    ensures { (schema : SchemaView) (keys : List Key)
        → (see_keys keys (new_solver schema)).candidates
        ≡ indices_with (accepted_keys schema.resolutions keys) schema }
{}

/// The known keys are those of the keys that some resolution has. Where one resolution has all
/// known keys that a new solver sees, exactly the resolutions are left that have them all. So that
/// one is among them. The order of the keys does not matter.
pub fn known_keys_decide()
    ensures left { (schema : SchemaView) (keys : List Key) (index : ℕ) (r : Resolved)
        → HasAllKnown schema keys index r
        → (see_keys keys (new_solver schema)).candidates
        ≡ indices_with (known_keys schema.resolutions keys) schema }
    ensures among { (schema : SchemaView) (keys : List Key) (index : ℕ) (r : Resolved)
        → HasAllKnown schema keys index r
        → Contains (see_keys keys (new_solver schema)).candidates index }
    ensures in_any_order { (schema : SchemaView) (keys others : List Key) (index : ℕ) (r : Resolved)
        → HasAllKnown schema keys index r → HaveSameKeys keys others
        → (see_keys keys (new_solver schema)).candidates
        ≡ (see_keys others (new_solver schema)).candidates }
{}

/// `finish` gives or lists each viable candidate. Where it alone is viable, `finish` gives its
/// index. Where several are, its description stands among theirs, at its own place.
pub fn viable_candidates_are_named()
    ensures { (s : State) (index : ℕ) (r : Resolved)
        → Contains (viable s) index → slice_get s.schema.resolutions index ≡ Some r
        → EndsWithOrNames s index (description r.selections) }
{}

/// If a resolution has all known keys that a new solver sees, and one of the keys matches each of
/// its required fields, then it is viable, and the solver ends with it or lists it.
pub fn told_resolutions_are_found()
    ensures viable { (schema : SchemaView) (keys : List Key) (index : ℕ) (r : Resolved)
        → HasAllKnown schema keys index r → is_viable keys r ≡ true
        → Contains (viable (see_keys keys (new_solver schema))) index }
    ensures ends { (schema : SchemaView) (keys : List Key) (index : ℕ) (r : Resolved)
        → HasAllKnown schema keys index r → is_viable keys r ≡ true
        → EndsWithOrNames (see_keys keys (new_solver schema)) index (description r.selections) }
{}

/// A new solver of a built schema that sees the keys of one choice ends with that choice's index,
/// or lists its description at its own place.
///
/// The order does not matter, and keys may be repeated or unknown. Each field that the choice
/// requires has to be matched by a told key, and no told key may be one that another choice has and
/// this one lacks.
pub fn told_choices_are_found()
    ensures { (schema : SchemaView) → IsOwnBuild schema
        → (choices : List (List ℕ)) → ListsChoices schema.build schema.root choices
        → (index : ℕ) (choice : List ℕ) → slice_get choices index ≡ Some choice
        → (keys : List Key) (r : Resolved)
        → TellsChoice schema.build schema.root choice keys r
        → EndsWithOrNames (see_keys keys (new_solver schema)) index (description r.selections) }
{}

/// No call of a solver adds a candidate, and neither does a run of calls, nor a call of a probing
/// solver. What is left are some of the candidates, in their order.
pub fn no_candidate_is_added()
    ensures by_a_call { (call : CallView) (s : State)
        → LeavesSome s.candidates (after_call call s).candidates }
    ensures by_a_run { (calls : List CallView) (s : State)
        → LeavesSome s.candidates (after_calls calls s).candidates }
    ensures by_probing { (path : List Name) (key : Name) (candidates : List Resolved)
        → LeavesSome candidates (probing.probe_key path key candidates) }
{}

/// A value that fits no shape leaves no candidate, whichever call says so.
pub fn no_shapes_leave_no_candidate()
    ensures shapes { (s : State) → satisfy_shapes [] s ≡ record s { candidates = [] } }
    ensures fields { (s : State) → satisfy [] s ≡ record s { candidates = [] } }
    ensures at_path { (path : List Name) (s : State)
        → satisfy_at_path path [] s ≡ record s { candidates = [] } }
{}

/// A resolution has exactly the keys that mean one of its fields.
pub fn keys_mean_fields()
    ensures { (key : Key) (r : Resolved)
        → has_key key r ≡ list_any (matches key) (finite.values r.fields) }
{}

/// There are keys that leave two resolutions both viable exactly where each resolution has, for
/// every field that the other one requires, a key that means it. Keys that both have leave both
/// viable, where they match every field that either requires.
pub fn shared_keys_leave_both_viable()
    ensures exactly { (schema : SchemaView) (first second : ℕ) (r s : Resolved)
        → slice_get schema.resolutions first ≡ Some r
        → slice_get schema.resolutions second ≡ Some s
        → CanBothBeViable schema first second
        ↔ (HasKeysRequiredBy r s × HasKeysRequiredBy s r) }
    ensures by_keys { (schema : SchemaView) (keys : List Key) (first second : ℕ) (r s : Resolved)
        → slice_get schema.resolutions first ≡ Some r
        → slice_get schema.resolutions second ≡ Some s
        → has_keys keys r ≡ true → has_keys keys s ≡ true
        → is_viable keys r ≡ true → is_viable keys s ≡ true
        → LeavesBothViable schema keys first second }
{}

/// To see one more key is to make one more call. One more call of a run is made after the others.
/// No key changes the schema.
pub fn calls_are_made_one_by_one()
    ensures keys { (keys : List Key) (key : Key) (s : State)
        → see_keys (keys ++ (key ∷ [])) s ≡ see_key key (see_keys keys s) }
    ensures calls { (calls : List CallView) (call : CallView) (s : State)
        → after_calls (calls ++ (call ∷ [])) s ≡ after_call call (after_calls calls s) }
    ensures schema { (keys : List Key) (s : State) → (see_keys keys s).schema ≡ s.schema }
{}

/// A key that no candidate has is seen and changes nothing else, and the answer to it is `Unknown`.
pub fn unknown_keys_are_only_seen()
    ensures seen { (key : Key) (s : State)
        → passing (has_key key) s ≡ [] → see_key key s ≡ mark_seen key s }
    ensures answer { (key : Key) (s : State)
        → passing (has_key key) s ≡ [] → key_result key s ≡ unknown }
{}

/// The names that tell viable resolutions apart are in byte order, each once. The fields that a
/// resolution of a choice lacks rise by their stored keys.
pub fn reports_are_in_order()
    ensures disambiguating { (resolutions : List Resolved)
        → IsStrictlySortedBy (slice_cmp nat_cmp) (disambiguating resolutions) }
    ensures missing { (build : Build) (root : ℕ) (choice : List ℕ) (seen : List Key) (r : Resolved)
        → IsResolution build root choice r
        → IsStrictlySortedBy key_cmp (map key_of_field (missing seen r)) }
{}

/// A resolution is viable exactly if it lacks nothing.
pub fn viable_resolutions_lack_nothing()
    ensures { (seen : List Key) (r : Resolved)
        → (is_viable seen r ≡ true) ↔ (missing seen r ≡ []) }
{}

/// In the flat format the names of the seen keys alone decide, of whatever kind the keys are:
/// whether a resolution is viable, what it lacks, and which names are unknown.
pub fn names_decide_in_the_flat_format()
    ensures viable { (schema : SchemaView) (seen : List Key)
        → IsOwnBuild schema → schema.build.format ≡ Flat
        → All (λ r. is_viable seen r ≡ is_viable_by_name seen r) schema.resolutions }
    ensures missing { (schema : SchemaView) (seen : List Key)
        → IsOwnBuild schema → schema.build.format ≡ Flat
        → All (λ r. missing seen r ≡ missing_by_name seen r) schema.resolutions }
    ensures unknown { (schema : SchemaView) (seen : List Key)
        → IsOwnBuild schema → schema.build.format ≡ Flat
        → unknown_names seen schema.resolutions ≡ unknown_by_name seen schema.resolutions }
{}

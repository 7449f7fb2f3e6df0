//! Where items stand.
ghost use Rattle.std.specs.Prelude.{◌≡◌};
ghost use Rattle.facet_solver_types.specs.Sites.{same_block, same_site, site_view, top};

/// Where an item stands.
#[derive(Clone, Copy, Debug)]
pub(crate) struct Site<'t> {
    /// The name of the innermost module around it, or nothing where it stands in none.
    pub(crate) module_name: &'t str,
    /// Where the brace stands that opens its block, if it stands in one of a function.
    pub(crate) block: Option<usize>,
}

/// In no module, and in no block.
pub(crate) fn top<'t>() -> Site<'t>
    ensures { site_view result ≡ top }
{
    Site {
        module_name: "",
        block: None,
    }
}

/// Whether two items stand in one block, or both in none.
fn same_block(one: Option<usize>, other: Option<usize>) -> bool
    ensures { result ≡ same_block one other }
{
    match (one, other) {
        (Some(one), Some(other)) => one == other,
        (None, None) => true,
        _ => false,
    }
}

/// Whether two items stand in one module and in one block, or both in none.
pub(crate) fn same_site(one: Site<'_>, other: Site<'_>) -> bool
    ensures { result ≡ same_site (site_view one.entry) (site_view other.entry) }
{
    one.module_name == other.module_name && same_block(one.block, other.block)
}

//! What stands in brackets, and names.
ghost use Rattle.std.specs.Prelude.{◌≡◌, ◌<◌, Err, IfErr, IfOk, Ok, OnOk, length};
ghost use Rattle.facet_solver_types.specs.Inside.{inside, name_at};
ghost use Rattle.facet_solver_types.specs.Passages.{passage_view};
ghost use Rattle.facet_solver_types.specs.Tokens.{token_view};

use super::first::is_name;
use super::run::{Run, run_len};
use crate::fault::Fault;
use crate::passage::Passage;
use crate::problem::Expected;
use crate::token::Token;

/// What stands in the brackets that stand first.
pub(super) fn inside<'s, 't>(passage: Passage<'s, 't>) -> Passage<'s, 't>
    requires { 0 < length passage.tokens.now }
    ensures { passage_view result ≡ inside (passage_view passage.entry) }
{
    let rest = passage.after(1);
    rest.up_to(run_len(Run::Group, rest.tokens))
}

/// The name that stands first.
pub(super) fn name_at<'t>(passage: Passage<'_, 't>) -> Result<Token<'t>, Fault>
    ensures ok { IfOk result (λ name.
        name_at (passage_view passage.entry) ≡ Ok (token_view name)) }
    ensures some { OnOk result (0 < length passage.entry.tokens.now) }
    ensures fault { IfErr result (λ fault. name_at (passage_view passage.entry) ≡ Err fault) }
{
    match passage.tokens.first() {
        Some(token) if is_name(token.kind) => Ok(*token),
        _ => Err(passage.unexpected(Expected::Name)),
    }
}

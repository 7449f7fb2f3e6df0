//! Which kinds of values what a target comes to reads.
ghost use Rattle.std.specs.Prelude.{◌≡◌, IsTrue};
ghost use Rattle.facet_solver_checker.specs.Apartness as spec;
ghost use Rattle.facet_solver_checker.specs.Apartness.{HaveNoSimple};

use facet_solver_reader::PlannedEnd;

/// Whether null is read.
fn reads_null(end: &PlannedEnd<'_>) -> bool
    ensures { result ≡ spec.reads_null end.now }
{
    match end {
        PlannedEnd::Null | PlannedEnd::Nothing | PlannedEnd::Anything => true,
        _ => false,
    }
}

/// Whether truth values may be.
fn reads_truth(end: &PlannedEnd<'_>) -> bool
    ensures { result ≡ spec.reads_truth end.now }
{
    match end {
        PlannedEnd::Truth | PlannedEnd::Anything => true,
        _ => false,
    }
}

/// Whether numbers may be.
fn reads_number(end: &PlannedEnd<'_>) -> bool
    ensures { result ≡ spec.reads_number end.now }
{
    match end {
        PlannedEnd::Whole(_) | PlannedEnd::Float | PlannedEnd::Anything => true,
        _ => false,
    }
}

/// Whether texts may be.
pub(crate) fn reads_text(end: &PlannedEnd<'_>) -> bool
    ensures { result ≡ spec.reads_text end.now }
{
    match end {
        PlannedEnd::Text
        | PlannedEnd::Character
        | PlannedEnd::Tag(_)
        | PlannedEnd::Named(_)
        | PlannedEnd::Anything => true,
        _ => false,
    }
}

/// Whether lists may be.
pub(crate) fn reads_list(end: &PlannedEnd<'_>) -> bool
    ensures { result ≡ spec.reads_list end.now }
{
    match end {
        PlannedEnd::List(_) | PlannedEnd::Tuple(_) | PlannedEnd::Anything => true,
        _ => false,
    }
}

/// Whether objects may be.
pub(crate) fn reads_object(end: &PlannedEnd<'_>) -> bool
    ensures { result ≡ spec.reads_object end.now }
{
    match end {
        PlannedEnd::Map(_, _)
        | PlannedEnd::Object(Some(_))
        | PlannedEnd::Named(_)
        | PlannedEnd::Nothing
        | PlannedEnd::Anything => true,
        _ => false,
    }
}

/// Whether null, truth values and numbers are not read by both of two ends.
pub(crate) fn have_no_simple(first: &PlannedEnd<'_>, second: &PlannedEnd<'_>) -> bool
    ensures { IsTrue result → HaveNoSimple first.now second.now }
{
    let null = reads_null(first) && reads_null(second);
    let truth = reads_truth(first) && reads_truth(second);
    let number = reads_number(first) && reads_number(second);
    !null && !truth && !number
}

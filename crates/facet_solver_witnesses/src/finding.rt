//! The documents that show where a type is ambiguous.
ghost use Rattle.std.specs.Prelude.{IfOk};
ghost use Rattle.facet_solver_witnesses.specs.Covered.{AreCovered};
ghost use Rattle.facet_solver_witnesses.specs.Shown.{AreShown};

use crate::ambiguity::Ambiguity;
use crate::covering::add_unconfirmed;
use crate::model::Model;
use crate::place::Place;
use crate::questions::Questions;
use crate::sites::listed::Listed;
use crate::sites::required::Required;
use crate::sites::visits::Visits;
use crate::telling::Teller;
use facet_solver_reader::{Plan, Reader};
use std::alloc::{AllocError, Global};

/// How many steps the search for an object takes at most, where nothing else is said.
pub const DEFAULT_BUDGET: usize = 300;

/// The ambiguities of places of the plan of a reader: each place stands in one.
///
/// First come those that have a document which the reader reads in several ways, or a cause why
/// there may be one: in the order in which a document comes to what can be read in several ways,
/// and there in the order of the places. Behind them come the places at which no document is found,
/// one by one. The search for an object takes at most so many steps.
///
/// # Errors
///
/// Memory was refused.
pub fn ambiguities<'c>(
    alloc: Global,
    reader: &Reader<'c>,
    plan: &Plan<'c>,
    places: &[Place],
    budget: usize,
) -> Result<Vec<Ambiguity<'c>>, AllocError>
    ensures shown { IfOk result (λ found. AreShown reader.now found.items) }
    ensures covered { IfOk result (λ found. AreCovered found.items places.now) }
{
    let mut found = searched(alloc, reader, plan, places, budget)?;
    add_unconfirmed(alloc, plan, places, &mut found)?;
    Ok(found)
}

/// What the search finds for places. A place is left out where no document comes to it, or where
/// none is read in both ways.
fn searched<'c>(
    alloc: Global,
    reader: &Reader<'c>,
    plan: &Plan<'c>,
    places: &[Place],
    budget: usize,
) -> Result<Vec<Ambiguity<'c>>, AllocError>
    ensures { IfOk result (λ found. AreShown reader.now found.items) }
{
    let mut found = Vec::new(alloc);
    if places.is_empty() {
        return Ok(found);
    }
    let model = Model::new(alloc, plan)?;
    let visits = Visits::new(alloc, &model)?;
    let required = Required::new(alloc, &model)?;
    let listed = Listed::new(alloc, &model, places)?;
    let mut questions = Questions::new(alloc);
    let teller = Teller {
        alloc,
        reader,
        model: &model,
        visits: &visits,
        required: &required,
        listed: &listed,
        budget,
    };
    teller.tell_all(&mut questions, &mut found)?;
    Ok(found)
}

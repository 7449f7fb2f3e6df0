//! What the other workloads do not reach.

use crate::branches::read_branches;
use crate::documents::read_log;
use crate::elements::tell_elements;
use crate::fault::Fault;
use crate::job::Job;
use crate::narrowed_tags::tell_narrowed;
use crate::notes::read_notes;
use crate::paths::probe_paths;
use crate::payloads::tell_payloads;
use crate::types::Tagging;

/// Reads and solves what no other workload does.
pub fn run(job: &mut Job) -> Result<(), Fault> {
    read_notes(job)?;
    tell_narrowed(job)?;
    tell_elements(job)?;
    probe_paths(job)?;
    tell_payloads(job)?;
    let count = job.scaled(50_000);
    read_log(job, "long log", Tagging::Internal("kind"), count)?;
    read_branches(job)
}

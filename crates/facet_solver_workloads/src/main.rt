//! Runs workloads over the libraries, and prints a digest of all that they answer.
//!
//! Each workload is asked for by four words: its name, a number that its inputs follow from, how
//! many inputs of a kind there are, and how large they are, in hundredths of the usual size. To a
//! sample the last two say something else, which stands at its function.
#![tactic(auto)]

mod awkward;
mod branches;
mod catalogues;
mod chains;
mod choices;
mod configurations;
mod deep;
mod digest;
mod documents;
mod elements;
mod events;
mod fault;
mod features;
mod inputs;
mod job;
mod json_text;
mod keys;
mod levels;
mod narrowed_tags;
mod nested_keys;
mod notes;
mod paths;
mod payloads;
mod random;
mod reads;
mod records;
mod refusals;
mod results;
mod services;
mod start;
mod structs;
mod types;
mod wide;
mod words;

use fault::Fault;
use job::Job;
use std::process::ExitCode;
use std::rt::Env;
use std::{env, io};

/// The status where a workload does not end.
const FAILED: u8 = 1;

fn main(rt: HostRuntime) -> io::Result<ExitCode> {
    let mut arguments = env::args(&rt)?.skip(1);
    for _ in 0..usize::MAX {
        let Some(name) = arguments.next() else {
            break;
        };
        let seed = number(arguments.next());
        let count = number(arguments.next());
        let size = number(arguments.next());
        let mut job = Job::new(rt.alloc(), seed, count, size);
        if let Err(fault) = run(name.as_str(), &mut job) {
            println!(rt; "{name}: {fault:?}")?;
            return Ok(ExitCode::from(FAILED));
        }
        println!(rt; "{name}\n{}", job.report)?;
    }
    Ok(ExitCode::from(0))
}

/// The number that a word is; 0 for any other word.
fn number(word: Option<String>) -> u64 {
    match word {
        Some(word) => word.as_str().parse::<u64>().unwrap_or(0),
        None => 0,
    }
}

fn run(name: &str, job: &mut Job) -> Result<(), Fault> {
    match name {
        "documents" => documents::run(job),
        "events" => events::run(job),
        "keys" => keys::run(job),
        "start" => start::run(job),
        "awkward" => awkward::run(job),
        "wide" => wide::run(job),
        "parts" => levels::sample_parts(job),
        "levels" => levels::sample_levels(job),
        "branches" => branches::sample(job),
        "paths" => paths::sample(job),
        "payloads" => payloads::sample(job),
        "structs" => structs::sample(job),
        _ => Err(Fault::Type),
    }
}

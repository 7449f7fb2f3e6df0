//! Reads a document of JSON as a type that a file of Rust declarations has, and tells what the
//! types of the file are.
#![tactic(auto)]

mod answer;
mod arguments;
mod catalogue;
mod check;
mod count;
mod help;
mod json;
mod lines;
mod name;
mod notes;
mod printable;
mod question;
mod quoted;
mod read;
mod reply;
mod representation;
mod root;
mod run;
mod status;
mod types;
mod unserved;
mod utf8;

use run::run;
use std::process::ExitCode;

fn main(rt: HostRuntime) -> ExitCode {
    let status = run(&rt, &mut rt.stdin(), &mut rt.stdout(), &mut rt.stderr());
    ExitCode::from(status.code())
}

//! Reads a catalogue of shapes and a document in JSON, and prints which variants the document
//! means.
#![tactic(auto)]

mod answer;
mod decode;
mod document;
mod fits;
mod reading;
mod reply;
mod serve;
mod tell;

use serve::serve;
use std::process::ExitCode;

fn main(rt: HostRuntime) -> ExitCode {
    let status = serve(rt.alloc(), &mut rt.stdin(), &mut rt.stdout());
    ExitCode::from(status)
}

//! Runs the transcripts in the files that its arguments name, and, for the argument `in_code`, the
//! checks that only code can make. Of the files behind the argument `texts` it parses each text.
//!
//! What it prints is the same where one request for memory is refused, whichever it is: what was
//! refused is made again, and before that what was to change is compared with what it was.
#![tactic(auto)]

mod ambiguities;
mod answer;
mod by_hand;
mod calling;
mod catalogue;
mod declarations;
mod documents;
mod error_by_hand;
mod errors;
mod in_code;
mod lives;
mod look_ups;
mod marks;
mod probing;
mod public_names;
mod readme;
mod resolution;
mod rooted;
mod runs;
mod solving;
mod texts;
mod transcript;
mod types;
mod uses;
mod words;

use answer::{Answer, Line, Outcome};
use in_code::CHECKS;
use std::io::ErrorKind;
use std::process::ExitCode;
use std::rt::{Clock, Env, Files};
use std::{env, fs, io};
use transcript::{HEAD, lines, of_one, run as run_transcript};

/// The argument that asks for the checks that only code can make.
const IN_CODE: &str = "in_code";

/// The argument behind which files have texts of types.
const TEXTS: &str = "texts";

/// The status where a transcript or a check does not hold.
const WRONG: u8 = 1;

/// The status where all hold that did not run out of memory.
const REFUSED: u8 = 5;

/// How many transcripts and checks did not hold, and how many ran out of memory.
#[derive(Clone, Copy)]
struct Tally {
    wrong: u64,
    refused: u64,
}

impl Tally {
    fn status(self) -> ExitCode {
        match self {
            Tally {
                wrong: 0,
                refused: 0,
            } => ExitCode::from(0),
            Tally { wrong: 0, .. } => ExitCode::from(REFUSED),
            _ => ExitCode::from(WRONG),
        }
    }
}

fn main(rt: HostRuntime) -> io::Result<ExitCode> {
    // Only before the first line is printed can a run end so: what prints is made again by itself.
    let outcome = match run(&rt) {
        Err(error) if error.kind() == ErrorKind::OutOfMemory => run(&rt),
        outcome => outcome,
    };
    match outcome {
        Ok(tally) => Ok(tally.status()),
        Err(error) if error.kind() == ErrorKind::OutOfMemory => {
            println!(rt; "refused")?;
            Ok(ExitCode::from(REFUSED))
        }
        Err(error) => Err(error),
    }
}

fn run<R: Clock + Env + Files + AllocGlobal + Print>(rt: &R) -> io::Result<Tally> {
    let mut tally = Tally {
        wrong: 0,
        refused: 0,
    };
    let mut has_texts = false;
    for argument in env::args(rt)?.skip(1) {
        match argument.as_str() {
            IN_CODE => run_checks(rt, &mut tally)?,
            TEXTS => has_texts = true,
            file if has_texts => run_texts(rt, file)?,
            file => run_file(rt, &mut tally, file)?,
        }
    }
    Ok(tally)
}

fn run_checks<R: AllocGlobal + Print>(rt: &R, tally: &mut Tally) -> io::Result<()> {
    let mut answer = Answer::new(rt.alloc());
    for (name, check) in &CHECKS {
        answer.begin(Line {
            number: 0,
            text: "",
        });
        check.run(&mut answer);
        if answer.begins_again() {
            check.run(&mut answer);
        }
        report(rt, tally, IN_CODE, name, &mut answer)?;
    }
    Ok(())
}

fn run_file<R: Files + AllocGlobal + Print>(
    rt: &R,
    tally: &mut Tally,
    file: &str,
) -> io::Result<()> {
    match read(rt, file) {
        Ok(text) => {
            let mut answer = Answer::new(rt.alloc());
            run_text(rt, tally, file, text.as_str(), &mut answer)
        }
        Err(error) => Err(error),
    }
}

fn run_texts<R: Clock + Files + AllocGlobal + Print>(rt: &R, file: &str) -> io::Result<()> {
    let texts = read(rt, file)?;
    texts::run(rt, texts.as_str())
}

fn read<R: Files + AllocGlobal>(rt: &R, file: &str) -> io::Result<String> {
    match fs::read_to_string(rt, file) {
        Err(error) if error.kind() == ErrorKind::OutOfMemory => fs::read_to_string(rt, file),
        read => read,
    }
}

fn run_text<'t, R: Print>(
    rt: &R,
    tally: &mut Tally,
    file: &str,
    text: &'t str,
    answer: &mut Answer<'t>,
) -> io::Result<()> {
    let lines = lines(text, answer);
    for index in 0..lines.len() {
        if let Some(name) = lines[index].text.strip_prefix(HEAD) {
            run_transcript(of_one(&lines[index + 1..]), answer);
            report(rt, tally, file, name, answer)?;
        }
    }
    Ok(())
}

/// Prints how a transcript or a check went, and counts it.
fn report<R: Print>(
    rt: &R,
    tally: &mut Tally,
    file: &str,
    name: &str,
    answer: &mut Answer<'_>,
) -> io::Result<()> {
    match answer.outcome {
        Outcome::Held => (),
        Outcome::Refused => tally.refused = tally.refused.saturating_add(1),
        _ => tally.wrong = tally.wrong.saturating_add(1),
    }
    answer.report(file, name);
    println!(rt; "{}", answer.text)
}

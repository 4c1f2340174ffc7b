//! Answers questions about texts by the public calls: `suite_driver FILE`.
//!
//! The file has questions, one after another: a word and three texts, each as a netstring (`5:hello,`). An answer is
//! written for each, a netstring too, `memory` where an allocation failed. The questions after `schema`, `type` and
//! `filter` are of the document, the type and the filter that were given last. tests/driver.py lists the words.
#![tactic(auto)]

mod costs;
mod device_runs;
mod devices;
mod filters;
mod literals;
mod moments;
mod nodes;
mod outcomes;
mod paths;
mod question;
mod rows;
mod runs;
mod schemas;
mod texts;
mod tree_line;
mod values;

use crate::device_runs::push_of_work;
use crate::filters::push_of_document;
use crate::question::{Held, Question, hold, take_question};
use crate::texts::push_of_text;
use std::alloc::{AllocError, Global};
use std::process::ExitCode;
use std::{env, fs, io};

/// Appends the answer to a question.
fn push_answer(
    out: &mut String,
    alloc: Global,
    held: &Held<'_>,
    question: &Question<'_>,
) -> Result<(), AllocError> {
    if push_of_text(out, alloc, question)? || push_of_work(out, alloc, held, question)? {
        return Ok(());
    }
    push_of_document(out, alloc, held, question)
}

/// Writes the answer to a question.
fn answer(rt: &HostRuntime, held: &Held<'_>, question: &Question<'_>) -> io::Result<()> {
    let mut out = String::new(rt.alloc());
    match push_answer(&mut out, rt.alloc(), held, question) {
        Ok(()) => print!(rt; "{}:{out},", out.len()),
        Err(AllocError) => print!(rt; "6:memory,"),
    }
}

/// Writes the answer to each question, and returns whether all bytes were questions.
fn answer_all(rt: &HostRuntime, wire: &[u8]) -> io::Result<bool> {
    let mut rest = wire;
    let mut held = Held::default();
    for _ in 0..wire.len() {
        let Some(question) = take_question(&mut rest) else {
            break;
        };
        hold(&mut held, &question);
        answer(rt, &held, &question)?;
    }
    Ok(rest.is_empty())
}

/// The words of the command line, the program's name first.
fn words(rt: &HostRuntime) -> io::Result<Vec<String>> {
    Ok(env::args(rt)?.collect(rt.alloc())?)
}

fn status(rt: &HostRuntime) -> io::Result<u8> {
    let words = words(rt)?;
    let Some(path) = words.get(1) else {
        return Ok(2);
    };
    let wire = fs::read(rt, path.as_str())?;
    Ok(if answer_all(rt, wire.as_slice())? {
        0
    } else {
        3
    })
}

fn main(rt: HostRuntime) -> ExitCode {
    ExitCode::from(status(&rt).unwrap_or(5))
}

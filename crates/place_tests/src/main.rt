//! Where texts are at fault, and what is told of it. The text is standard input.
//!
//! ```text
//! place_tests why
//! place_tests brief
//! place_tests place OFFSET
//! place_tests excerpt FIRST AFTER
//! place_tests kinds OFFSET
//! place_tests check NUMBER
//! ```
//!
//! `why` tells the place of the fault for which the text is refused, shows it, and tells what is
//! wrong there. `brief` does the same with the part of the text that is meant in the place of its
//! line. `place` tells the line and the column of an offset and then the line, `excerpt` shows the
//! part between two offsets. `kinds` tells which kinds of token could stand at an offset, one a
//! line. `check` tells where the program has the fault with the number, whether or not it's the one
//! for which it's refused.
#![tactic(auto)]

mod why;

use fault_places::{excerpt_of, expected_at, line_at, place_of};
use round_lang::Span;
use std::alloc::Global;
use std::fmt::Write as _;
use std::process::ExitCode;
use std::{env, io};
use test_kit::{Fault, end, number, texts};
use why::{Form, tell_fault, tell_why};

fn tell_line(text: &str, offset: usize, out: &mut String) -> Result<(), Fault> {
    write!(
        out,
        "{} \"{}\"\n",
        place_of(text, offset),
        line_at(text, offset)
    )?;
    Ok(())
}

fn tell_kinds(alloc: Global, text: &str, offset: usize, out: &mut String) -> Result<(), Fault> {
    let expected = expected_at(alloc, text, offset)?;
    for kind in expected.kinds() {
        write!(out, "{kind}\n")?;
    }
    Ok(())
}

/// Does what the words say, and gives what is to be printed.
fn answer(rt: &HostRuntime, alloc: Global) -> Result<String, Fault> {
    let words = env::args(rt)?.collect::<Vec<String>>(alloc)?;
    let words = texts(alloc, words.as_slice())?;
    let text = io::read_to_string(alloc, rt.reader())?;
    let text = text.as_str();
    let mut out = String::new(alloc);
    match words.as_slice() {
        ["why"] => tell_why(alloc, text, Form::Shown, &mut out)?,
        ["brief"] => tell_why(alloc, text, Form::Brief, &mut out)?,
        ["place", offset] => tell_line(text, number(offset)? as usize, &mut out)?,
        ["kinds", offset] => tell_kinds(alloc, text, number(offset)? as usize, &mut out)?,
        ["check", cause] => tell_fault(alloc, text, cause, &mut out)?,
        ["excerpt", first, after] => {
            let first = number(first)? as usize;
            let after = number(after)? as usize;
            write!(out, "{}\n", excerpt_of(alloc, text, Span { first, after })?)?;
        }
        _ => return Err(Fault::Unreadable),
    }
    Ok(out)
}

fn main(rt: HostRuntime) -> ExitCode {
    end(&rt, answer(&rt, rt.alloc()))
}

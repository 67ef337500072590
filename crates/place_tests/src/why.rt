//! Why a text is refused, and where.
use fault_places::{excerpt_of, expected_at, fault_place, place_of};
use round_check::{CheckFault, check};
use round_lang::{LangFault, Program, Span, parse};
use std::alloc::Global;
use std::fmt::Write as _;
use test_kit::Fault;

/// How a place is told.
#[derive(Clone, Copy)]
pub enum Form {
    /// With its line.
    Shown,
    /// With the part of the text that is meant.
    Brief,
}

/// Tells a place, and what stands there.
fn tell_place(
    alloc: Global,
    text: &str,
    span: Span,
    form: Form,
    out: &mut String,
) -> Result<(), Fault> {
    write!(out, "{}", place_of(text, span.first))?;
    match form {
        Form::Shown => write!(out, "\n{}\n", excerpt_of(alloc, text, span)?)?,
        Form::Brief => {
            let part = text.get(span.first..span.after).unwrap_or("?");
            write!(out, " \"{part}\" ")?;
        }
    }
    Ok(())
}

/// Tells what could stand in the place of a token or a character.
fn tell_expected(
    alloc: Global,
    text: &str,
    span: Span,
    form: Form,
    out: &mut String,
) -> Result<(), Fault> {
    let expected = expected_at(alloc, text, span.first)?;
    tell_place(alloc, text, expected.place(span), form, out)?;
    write!(out, "{expected}\n")?;
    if let Some(mistake) = expected.mistake() {
        write!(out, "{mistake}\n")?;
    }
    Ok(())
}

/// Tells where a program is at fault, and shows it.
fn tell_fault_place(
    alloc: Global,
    text: &str,
    program: &Program,
    fault: CheckFault,
    form: Form,
    out: &mut String,
) -> Result<(), Fault> {
    let Some(place) = fault_place(alloc, text, program, fault)? else {
        out.push_str("nowhere\n")?;
        return Ok(());
    };
    tell_place(alloc, text, place.span(), form, out)?;
    write!(out, "{place}\n")?;
    if let Some(related) = place.related() {
        write!(out, "see {}\n", place_of(text, related.span().first))?;
    }
    Ok(())
}

/// The fault with the number.
fn fault_of(number: &str) -> Result<CheckFault, Fault> {
    match number {
        "1" => Ok(CheckFault::UnknownName),
        "2" => Ok(CheckFault::DoubleName),
        "3" => Ok(CheckFault::WrongType),
        "4" => Ok(CheckFault::FieldCount),
        "5" => Ok(CheckFault::NotAllowedHere),
        "6" => Ok(CheckFault::NoInput),
        "7" => Ok(CheckFault::NoDecision),
        "8" => Ok(CheckFault::MissingRound),
        _ => Err(Fault::Unreadable),
    }
}

/// Tells where a program has the fault with the number.
pub fn tell_fault(alloc: Global, text: &str, cause: &str, out: &mut String) -> Result<(), Fault> {
    let program = parse(alloc, text)?;
    tell_fault_place(alloc, text, &program, fault_of(cause)?, Form::Brief, out)
}

/// Tells where a program is at fault, if it's refused.
fn tell_check(
    alloc: Global,
    text: &str,
    program: Program,
    form: Form,
    out: &mut String,
) -> Result<(), Fault> {
    match check(alloc, program) {
        Ok(_checked) => {
            out.push_str("a program\n")?;
            Ok(())
        }
        Err(CheckFault::NoMemory) => Err(Fault::NoMemory),
        Err(fault) => tell_fault_place(alloc, text, &parse(alloc, text)?, fault, form, out),
    }
}

/// Tells why a text is no program, or why its program is refused.
pub fn tell_why(alloc: Global, text: &str, form: Form, out: &mut String) -> Result<(), Fault> {
    match parse(alloc, text) {
        Ok(program) => tell_check(alloc, text, program, form, out),
        Err(LangFault::NoMemory) => Err(Fault::NoMemory),
        Err(LangFault::BadToken(span)) => tell_expected(alloc, text, span, form, out),
        Err(LangFault::Unexpected(span)) => tell_expected(alloc, text, span, form, out),
        Err(LangFault::LimitPassed(span)) => {
            tell_place(alloc, text, span, form, out)?;
            out.push_str("a limit is passed\n")?;
            Ok(())
        }
        Err(LangFault::TooDeep | LangFault::TooLong) => {
            out.push_str("no place\n")?;
            Ok(())
        }
    }
}

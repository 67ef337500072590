//! The program that a text of the library is.
ghost use Rattle.std.specs.Prelude.{◌≡◌, IfOk};
ghost use Rattle.std.specs.String.{string_bytes};
ghost use Rattle.algorithm_library.specs.Texts.{IsProgramText, text_of};
ghost use Rattle.round_lang.specs.Source.{IsSource};

use round_check::{CheckFault, Checked, check};
use round_lang::{LangFault, MAX_TEXT, parse};
use run_events::NoMemory;
use std::alloc::Global;

/// The program of the text `values K` and what follows.
pub(crate) fn program_of(alloc: Global, values: u32, rest: &str) -> Result<Checked, NoMemory>
    requires { IsProgramText (text_of rest.now values) }
    ensures { IfOk result (λ p. IsSource (text_of rest.now values) p) }
{
    let text = text_of(alloc, values, rest)?;
    program_in(alloc, &text)
}

/// The text `values K` and what follows.
pub(crate) fn text_of(alloc: Global, values: u32, rest: &str) -> Result<String, NoMemory>
    ensures { IfOk result (λ text. string_bytes text ≡ text_of rest.now values) }
{
    let mut text = String::new(alloc);
    write!(text, "values {values}")?;
    text.push_str(rest)?;
    Ok(text)
}

fn program_in(alloc: Global, text: &str) -> Result<Checked, NoMemory>
    requires { IsProgramText text.now }
    ensures { IfOk result (λ p. IsSource text.now p) }
{
    let program = match parse(alloc, text) {
        Ok(program) => program,
        Err(fault) => return Err(memory_of_parse(fault)),
    };
    match check(alloc, program) {
        Ok(checked) => Ok(checked),
        Err(fault) => Err(memory_of_check(fault)),
    }
}

/// The only fault that a program's text has.
fn memory_of_parse(_fault: LangFault) -> NoMemory
    requires { _fault ≡ LangFault.NoMemory }
{
    NoMemory
}

/// The only fault that a typed program has.
fn memory_of_check(_fault: CheckFault) -> NoMemory
    requires { _fault ≡ CheckFault.NoMemory }
{
    NoMemory
}

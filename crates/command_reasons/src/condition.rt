//! Why EXPR of `explore --always` is no condition.
use crate::condition_program::{AfterCondition, BeforeCondition, name_of};
use crate::files::CommandFiles;
use crate::located::Located;
use crate::nesting::{Reading, too_deep_at};
use crate::program::program_for;
use crate::refusals::unless_refused;
use crate::sentence::Sentence;
use crate::source::limit_sentence;
use command_runs::Refusal;
use command_words::{Source, Words};
use exploration_texts::ConditionFault;
use fault_places::{Expected, FaultPlace, TokenKind, expected_at, fault_place};
use round_check::{CheckFault, Checked};
use round_lang::{LangFault, Program, Span, parse};
use std::alloc::Global;
use std::fmt;
use std::io::Write;

/// What stands before an expression in a program, so that it can be asked what goes on with one.
const BEFORE: &str = "values 2 period 1 input x state s: bool = (";

/// Tells what is wrong with EXPR, and whether it can be told.
pub(crate) fn tell_condition<O: Write>(
    alloc: Global,
    command: &Words<'_>,
    files: &CommandFiles<'_>,
    fault: ConditionFault,
    out: &mut O,
) -> Result<bool, Refusal> {
    let Words::Explore {
        source,
        exploring,
        ..
    } = command
    else {
        return Ok(false);
    };
    let Some(text) = exploring.always else {
        return Ok(false);
    };
    let condition = Condition { alloc, text };
    match fault {
        ConditionFault::Source(fault) => condition.tell_source(fault, out)?,
        ConditionFault::Check(fault) => {
            let program = program_for(alloc, *source, files, 1, 0);
            condition.tell_check(fault, program.ok().as_ref(), out)?
        }
        ConditionFault::NoMemory => return Err(Refusal::NoMemory),
    }
    Ok(true)
}

/// The text of EXPR.
#[derive(Clone, Copy)]
struct Condition<'a> {
    alloc: Global,
    text: &'a str,
}

impl Condition<'_> {
    /// A part of the text.
    fn located(&self, span: Span) -> Located<'_> {
        Located {
            name: "--always",
            text: self.text,
            span,
        }
    }

    /// The whole text.
    fn whole(&self) -> Located<'_> {
        self.located(Span {
            first: 0,
            after: self.text.len(),
        })
    }

    fn tell_source<O: Write>(&self, fault: LangFault, out: &mut O) -> Result<(), Refusal> {
        match fault {
            LangFault::BadToken(span) | LangFault::Unexpected(span) => {
                self.tell_unexpected(span, out)
            }
            LangFault::LimitPassed(span) => {
                let sentence = limit_sentence(self.text, span);
                self.located(span).tell(self.alloc, &sentence, out)
            }
            LangFault::TooDeep => {
                let found = too_deep_at(self.alloc, self.text, Reading::Expression)?;
                match found {
                    Some(span) => self.located(span).tell(self.alloc, &Sentence::TooDeep, out),
                    None => self.whole().tell(self.alloc, &Sentence::TooDeep, out),
                }
            }
            LangFault::TooLong => self.whole().tell(self.alloc, &Sentence::TooLongSource, out),
            LangFault::NoMemory => Err(Refusal::NoMemory),
        }
    }

    /// Tells what could stand in the place of a token.
    fn tell_unexpected<O: Write>(&self, span: Span, out: &mut O) -> Result<(), Refusal> {
        let Ok(text) = format!(in self.alloc; "{BEFORE}{}", self.text) else {
            return Err(Refusal::NoMemory);
        };
        let offset = BEFORE.len().saturating_add(span.first);
        let expected = expected_at(self.alloc, text.as_str(), offset)?;
        let place = self.located(span);
        if goes_on(&expected) {
            place.tell(self.alloc, &Sentence::ExpressionEnds, out)
        } else {
            place.tell(self.alloc, &expected, out)
        }
    }

    /// Tells what is wrong with an expression of the program's names.
    fn tell_check<O: Write>(
        &self,
        fault: CheckFault,
        program: Option<&Checked>,
        out: &mut O,
    ) -> Result<(), Refusal> {
        if let Some(program) = program {
            if self.tell_in_program(fault, program.program(), out)? {
                return Ok(());
            }
        }
        match fault {
            CheckFault::UnknownName => self.whole().tell(self.alloc, &Sentence::NoVariable, out),
            CheckFault::NoMemory => Err(Refusal::NoMemory),
            _ => self.whole().tell(self.alloc, &Sentence::NoCondition, out),
        }
    }

    /// Tells where EXPR is at fault by a program in which it stands, and whether that can be told.
    fn tell_in_program<O: Write>(
        &self,
        fault: CheckFault,
        program: &Program,
        out: &mut O,
    ) -> Result<bool, Refusal> {
        let before = self.written(&BeforeCondition(program))?;
        let after = self.written(&AfterCondition(program))?;
        let Ok(text) = format!(in self.alloc; "{before}{}{after}", self.text) else {
            return Err(Refusal::NoMemory);
        };
        let Some(framed) = unless_refused(parse(self.alloc, text.as_str()))? else {
            return Ok(false);
        };
        let Some(found) = fault_place(self.alloc, text.as_str(), &framed, fault)? else {
            return Ok(false);
        };
        match (self.span_behind(before.len(), found.span()), &found) {
            (Some(span), _) => self.located(span).tell(self.alloc, &found, out)?,
            (None, FaultPlace::WrongType { found, .. }) => {
                self.whole()
                    .tell(self.alloc, &Sentence::NoBool(name_of(*found)), out)?;
            }
            (None, _) => return Ok(false),
        }
        Ok(true)
    }

    fn written<T: fmt::Display>(&self, part: &T) -> Result<String, Refusal> {
        match format!(in self.alloc; "{part}") {
            Ok(text) => Ok(text),
            Err(_) => Err(Refusal::NoMemory),
        }
    }

    /// A part of EXPR, by its place in a text that has EXPR behind so many bytes; `None` if it's no
    /// part of EXPR alone.
    fn span_behind(&self, bytes: usize, span: Span) -> Option<Span> {
        let first = span.first.checked_sub(bytes)?;
        let after = span.after.checked_sub(bytes)?;
        (after <= self.text.len()).then_some(Span { first, after })
    }
}

/// Whether an expression ends there, or goes on with an operator.
fn goes_on(expected: &Expected) -> bool {
    expected.kinds().contains(&TokenKind::Sum)
}

//! Where a program is at fault.

use crate::doubles::note_doubles;
use crate::earliest::Earliest;
use crate::layout::{Layout, NameAt};
use crate::meanings::meant;
use crate::nearest::Meant;
use crate::parts::span_of;
use crate::rules::{NotAllowed, Rule};
use crate::scope::{Placed, is_input};
use crate::sites::Sites;
use crate::wants::Wants;
use round_check::CheckFault;
use round_lang::{Program, Span, Token, TokenFault, Ty, tokens};
use run_events::NoMemory;
use std::alloc::Global;

/// What is declared or bound twice.
#[derive(Clone, Copy, PartialEq, Eq, Debug)]
pub enum Double {
    Variable,
    Field,
    /// A field with the name of a variable.
    FieldAsVariable,
    /// The v of `{v : ..}` or `[v : ..]`, with a name that is in use.
    Bound,
    /// A second `input`.
    Input,
    /// A second `decide`.
    Decide,
}

/// Where a program is at fault, and what is wrong there.
#[derive(Clone, Copy, PartialEq, Eq, Debug)]
pub enum FaultPlace<'a> {
    /// A name that isn't declared, and the nearest one that may stand there, if one is near: a name
    /// that is declared, or a word of the language.
    UnknownName {
        name: NameAt<'a>,
        nearest: Option<NameAt<'a>>,
        word: Option<&'a str>,
    },
    /// A name whose second meaning stands in the text behind another.
    DoubleName {
        name: NameAt<'a>,
        other: NameAt<'a>,
        double: Double,
    },
    /// An expression or a name of another type than is wanted; if it's a name, `declared` is where
    /// it's declared or bound.
    WrongType {
        part: Span,
        declared: Option<NameAt<'a>>,
        wanted: Ty,
        found: Ty,
        wants: Wants<'a>,
    },
    /// A message with so many fields of which so many values are sent; `sent` is where.
    FieldCount {
        message: Span,
        fields: usize,
        sent: Span,
        values: usize,
    },
    /// A word or a name that may not stand where it does.
    NotAllowedHere {
        word: Span,
        why: NotAllowed<'a>,
    },
    /// The first block, or the place behind the last token, if no declaration is the input.
    NoInput {
        end: Span,
    },
    /// The same, if no declaration says what is decided.
    NoDecision {
        end: Span,
    },
    /// The number of a block that should be that of another round, or of none; or the place behind
    /// the last token, if a block lacks there.
    MissingRound {
        number: Span,
        round: Option<u32>,
    },
}

/// Another place that a fault has to do with.
#[derive(Clone, Copy, PartialEq, Eq, Debug)]
pub enum Related<'a> {
    /// The nearest declared name to one that isn't declared.
    Nearest(NameAt<'a>),
    /// What stands first of two that may stand once.
    First(NameAt<'a>, Double),
    /// The declaration of a name that is at fault, or of that which wants another type.
    Declared(NameAt<'a>),
    /// A message's fields.
    Fields(Span),
}

impl<'a> FaultPlace<'a> {
    /// The part of the text that is at fault.
    pub fn span(&self) -> Span {
        match self {
            FaultPlace::UnknownName { name, .. } => name.span,
            FaultPlace::DoubleName { name, .. } => name.span,
            FaultPlace::WrongType { part, .. } => *part,
            FaultPlace::FieldCount { sent, .. } => *sent,
            FaultPlace::NotAllowedHere { word, .. } => *word,
            FaultPlace::NoInput { end } => *end,
            FaultPlace::NoDecision { end } => *end,
            FaultPlace::MissingRound { number, .. } => *number,
        }
    }

    /// Another place that helps to see what is wrong, if there is one.
    pub fn related(&self) -> Option<Related<'a>> {
        match self {
            FaultPlace::UnknownName { nearest, .. } => (*nearest).map(Related::Nearest),
            FaultPlace::DoubleName { other, double, .. } => Some(Related::First(*other, *double)),
            FaultPlace::WrongType {
                declared,
                wants,
                ..
            } => (*declared).or(wants.name()).map(Related::Declared),
            FaultPlace::FieldCount { message, .. } => Some(Related::Fields(*message)),
            FaultPlace::NotAllowedHere { why, .. } => why.name().map(Related::Declared),
            FaultPlace::NoInput { .. } => None,
            FaultPlace::NoDecision { .. } => None,
            FaultPlace::MissingRound { .. } => None,
        }
    }
}

impl Related<'_> {
    /// Where that is.
    pub fn span(&self) -> Span {
        match self {
            Related::Nearest(name) => name.span,
            Related::First(name, _) => name.span,
            Related::Declared(name) => name.span,
            Related::Fields(span) => *span,
        }
    }
}

/// The first block whose number isn't the round's, or the end, if a block lacks there.
fn missing_round<'a>(placed: &Placed<'_, '_, '_>, end: usize) -> Option<FaultPlace<'a>> {
    let mut rounds = 0u32;
    let period = placed.program.period();
    let blocks = placed.program.blocks().iter().zip(&placed.layout.blocks);
    for (block, place) in blocks {
        let number = place.number;
        if rounds == period {
            return Some(FaultPlace::MissingRound {
                number,
                round: None,
            });
        }
        rounds = rounds.saturating_add(1);
        if block.number() != rounds {
            return Some(FaultPlace::MissingRound {
                number,
                round: Some(rounds),
            });
        }
    }
    if rounds == period {
        return None;
    }
    Some(FaultPlace::MissingRound {
        number: Span {
            first: end,
            after: end,
        },
        round: Some(rounds.saturating_add(1)),
    })
}

/// The end of the declarations, if none of them is the input.
fn no_input<'a>(placed: &Placed<'_, '_, '_>) -> Option<FaultPlace<'a>> {
    let end = placed.layout.declarations_end;
    if placed
        .program
        .variables()
        .iter()
        .any(|variable| is_input(variable))
    {
        return None;
    }
    Some(FaultPlace::NoInput { end })
}

/// The end of the declarations, if none of them says what is decided.
fn no_decision<'a>(placed: &Placed<'_, '_, '_>) -> Option<FaultPlace<'a>> {
    let end = placed.layout.declarations_end;
    if placed.program.decides().is_empty() {
        return Some(FaultPlace::NoDecision { end });
    }
    None
}

impl<'a> Earliest<'a> {
    /// Notes the first message that is sent with more or fewer values than it has fields.
    fn note_field_counts(&mut self, placed: &Placed<'_, '_, 'a>) {
        let blocks = placed.program.blocks().iter().zip(&placed.layout.blocks);
        for (block, place) in blocks {
            let fields = block.fields().len();
            let values = block.sent().len();
            if fields != values {
                let sent = span_of(place.sent_at).unwrap_or(place.message);
                let message = place.message;
                self.note(
                    sent.first,
                    FaultPlace::FieldCount {
                        message,
                        fields,
                        sent,
                        values,
                    },
                );
            }
        }
    }
}

/// Notes where a rule on names is broken.
fn note_rule<'p, 't, 'a>(
    placed: &'p Placed<'p, 't, 'a>,
    sites: &Sites<'p, 't, 'a>,
    rule: Rule,
    earliest: &mut Earliest<'a>,
) {
    for target in &sites.targets {
        earliest.note_target(rule, placed, target);
    }
    for site in &sites.expressions {
        earliest.note_names(rule, placed, site);
    }
}

/// Notes where a type is wrong.
fn note_types<'p, 't, 'a>(
    placed: &'p Placed<'p, 't, 'a>,
    sites: &Sites<'p, 't, 'a>,
    earliest: &mut Earliest<'a>,
) {
    for site in &sites.expressions {
        earliest.note_types(placed, site);
    }
    for (name, place) in placed.program.decides().iter().zip(&placed.layout.decides) {
        earliest.note_decide(placed, name, *place);
    }
}

/// The first name that isn't declared, with the nearest one that may stand there.
fn unknown_name<'p, 't, 'a>(
    alloc: Global,
    placed: &'p Placed<'p, 't, 'a>,
) -> Result<Option<FaultPlace<'a>>, NoMemory> {
    let mut earliest = Earliest::new();
    let sites = Sites::new(alloc, placed)?;
    note_rule(placed, &sites, Rule::Known, &mut earliest);
    match earliest.fault {
        Some(FaultPlace::UnknownName { name, .. }) => {
            let meant = meant(alloc, placed, &sites, name)?;
            Ok(Some(FaultPlace::unknown(name, meant)))
        }
        fault => Ok(fault),
    }
}

impl<'a> FaultPlace<'a> {
    /// A name that isn't declared, and what was meant by it, if that's known.
    pub(crate) fn unknown(name: NameAt<'a>, meant: Option<Meant<'a>>) -> FaultPlace<'a> {
        let Some(meant) = meant else {
            return FaultPlace::UnknownName {
                name,
                nearest: None,
                word: None,
            };
        };
        let text = meant.text;
        match meant.declared {
            Some(span) => FaultPlace::UnknownName {
                name,
                nearest: Some(NameAt { text, span }),
                word: None,
            },
            None => FaultPlace::UnknownName {
                name,
                nearest: None,
                word: Some(text),
            },
        }
    }
}

/// The first place at which the program is at fault for the cause.
fn place_in<'p, 't, 'a>(
    alloc: Global,
    placed: &'p Placed<'p, 't, 'a>,
    end: usize,
    fault: CheckFault,
) -> Result<Option<FaultPlace<'a>>, NoMemory> {
    let mut earliest = Earliest::new();
    match fault {
        CheckFault::DoubleName => {
            note_doubles(placed, &mut earliest);
            note_rule(
                placed,
                &Sites::new(alloc, placed)?,
                Rule::Fresh,
                &mut earliest,
            );
        }
        CheckFault::UnknownName => return unknown_name(alloc, placed),
        CheckFault::NotAllowedHere => {
            note_rule(
                placed,
                &Sites::new(alloc, placed)?,
                Rule::Allowed,
                &mut earliest,
            );
        }
        CheckFault::WrongType => note_types(placed, &Sites::new(alloc, placed)?, &mut earliest),
        CheckFault::FieldCount => earliest.note_field_counts(placed),
        CheckFault::NoInput => return Ok(no_input(placed)),
        CheckFault::NoDecision => return Ok(no_decision(placed)),
        CheckFault::MissingRound => return Ok(missing_round(placed, end)),
        CheckFault::NoMemory => return Err(NoMemory),
    }
    Ok(earliest.fault)
}

/// Where the program that a text is has the fault that its check answered: the first place in the
/// text at fault for that cause. None is answered if the text isn't the program's, or the program
/// has no such fault.
pub fn fault_place<'a>(
    alloc: Global,
    text: &'a str,
    program: &Program,
    fault: CheckFault,
) -> Result<Option<FaultPlace<'a>>, NoMemory> {
    let found: Vec<Token<'a>> = match tokens(alloc, text.as_bytes()) {
        Ok(found) => found,
        Err(TokenFault::NoMemory) => return Err(NoMemory),
        Err(TokenFault::BadToken(_)) => return Ok(None),
    };
    let end = span_of(&found).map_or(text.len(), |program| program.after);
    let layout = Layout::new(alloc, &found, end)?;
    let placed = Placed {
        program,
        layout: &layout,
    };
    place_in(alloc, &placed, end, fault)
}

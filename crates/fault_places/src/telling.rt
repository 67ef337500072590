//! Faults of a program in words.

use crate::fault::{Double, FaultPlace};
use crate::layout::NameAt;
use crate::rules::NotAllowed;
use crate::wants::Wants;
use round_lang::{Span, Ty};
use std::fmt;

/// Why a word or a name may not stand there, in words.
impl fmt::Display for NotAllowed<'_> {
    fn fmt<W: fmt::Write>(&self, f: &mut fmt::Formatter<W>) -> fmt::Result {
        match self {
            NotAllowed::Dest => write!(f, "\"dest\" stands in \"send\" only"),
            NotAllowed::From => write!(f, "\"from\" stands in \"on message\" only"),
            NotAllowed::Round => write!(f, "\"round\" can't stand in a variable's first value"),
            NotAllowed::Phase => write!(f, "\"phase\" can't stand in a variable's first value"),
            NotAllowed::StateAtStart(name) => write!(
                f,
                "the variable \"{}\" can't stand in a variable's first value",
                name.text
            ),
            NotAllowed::Field(name) => write!(
                f,
                "\"{}\" is a field, which stands in \"on message\" of its own block only",
                name.text
            ),
            NotAllowed::SetField(name) => write!(
                f,
                "\"{}\" is a field, and only variables are set and decided",
                name.text
            ),
        }
    }
}

fn write_double<W: fmt::Write>(
    name: NameAt<'_>,
    double: Double,
    f: &mut fmt::Formatter<W>,
) -> fmt::Result {
    let text = name.text;
    match double {
        Double::Variable => write!(f, "the variable \"{text}\" is declared twice"),
        Double::Field => write!(f, "the field \"{text}\" is declared twice"),
        Double::FieldAsVariable => { write!(f, "the field \"{text}\" has the name of a variable") }
        Double::Bound => write!(f, "the name \"{text}\" is in use here already"),
        Double::Input => write!(f, "\"{text}\" is a second input"),
        Double::Decide => write!(f, "this \"decide\" is a second one"),
    }
}

fn write_unknown<W: fmt::Write>(
    name: NameAt<'_>,
    near: Option<&str>,
    f: &mut fmt::Formatter<W>,
) -> fmt::Result {
    write!(f, "the name \"{}\" isn't declared", name.text)?;
    match near {
        Some(near) => write!(f, "; is it \"{near}\"?"),
        None => Ok(()),
    }
}

/// The nearest name or word.
fn near<'a>(nearest: Option<NameAt<'a>>, word: Option<&'a str>) -> Option<&'a str> {
    match nearest {
        Some(nearest) => Some(nearest.text),
        None => word,
    }
}

fn write_round<W: fmt::Write>(
    number: Span,
    round: Option<u32>,
    f: &mut fmt::Formatter<W>,
) -> fmt::Result {
    let is_end = number.first == number.after;
    match round {
        Some(round) if is_end => { write!(f, "the block \"at {round}:\" has to stand behind this") }
        Some(round) => write!(f, "the block \"at {round}:\" has to stand here"),
        None => write!(f, "the period has no more rounds, and so no more blocks"),
    }
}

fn write_counts<W: fmt::Write>(
    fields: usize,
    values: usize,
    f: &mut fmt::Formatter<W>,
) -> fmt::Result {
    let noun = if fields == 1 { "field" } else { "fields" };
    write!(f, "the message has {fields} {noun}, and ")?;
    if values == 1 {
        write!(f, "1 value is sent")
    } else {
        write!(f, "{values} values are sent")
    }
}

/// What to write in the place of an operand of a wrong type, for common mistakes.
fn advice(wants: Wants<'_>, wanted: Ty, found: Ty) -> Option<&'static str> {
    let Wants::Operator(word) = wants else {
        return None;
    };
    match (word, wanted, found) {
        ("+", _, Ty::Set) => Some("sets are joined by \"union\""),
        ("-", _, Ty::Set) => Some("sets are subtracted by \"minus\""),
        ("union" | "inter" | "minus", _, Ty::Num) => Some("the set of one value is single(e)"),
        ("has", _, Ty::Num) => Some("has(s, e): the set comes first"),
        ("[..]", Ty::Num, Ty::Set) => Some("r[e] is the entry of one value"),
        _ => None,
    }
}

fn write_type<W: fmt::Write>(
    wanted: Ty,
    found: Ty,
    wants: Wants<'_>,
    f: &mut fmt::Formatter<W>,
) -> fmt::Result {
    let found_text = kind_text(found);
    write!(f, "{wants} {}, and this is {found_text}", kind_text(wanted))?;
    match advice(wants, wanted, found) {
        Some(advice) => write!(f, "; {advice}"),
        None => Ok(()),
    }
}

/// A type with its article.
fn kind_text(ty: Ty) -> &'static str {
    match ty {
        Ty::Num => "a num",
        Ty::Bool => "a bool",
        Ty::Set => "a set",
        Ty::Row => "a row",
    }
}

/// What is wrong, in words, without the place.
impl fmt::Display for FaultPlace<'_> {
    fn fmt<W: fmt::Write>(&self, f: &mut fmt::Formatter<W>) -> fmt::Result {
        match self {
            FaultPlace::UnknownName {
                name,
                nearest,
                word,
            } => write_unknown(*name, near(*nearest, *word), f),
            FaultPlace::DoubleName { name, double, .. } => write_double(*name, *double, f),
            FaultPlace::WrongType {
                wanted,
                found,
                wants,
                ..
            } => write_type(*wanted, *found, *wants, f),
            FaultPlace::FieldCount { fields, values, .. } => write_counts(*fields, *values, f),
            FaultPlace::NotAllowedHere { why, .. } => write!(f, "{why}"),
            FaultPlace::NoInput { .. } => {
                write!(
                    f,
                    "no variable is the input: a line \"input NAME\" is missing"
                )
            }
            FaultPlace::NoDecision { .. } => {
                write!(f, "no variable decides: a line \"decide NAME\" is missing")
            }
            FaultPlace::MissingRound { number, round } => write_round(*number, *round, f),
        }
    }
}

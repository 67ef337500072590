//! How the language's own words and symbols are spelt.

use round_lang::{BinaryOperator, Constant, Mark, Ty, UnaryOperator, Word};

/// The word or symbol of a mark.
pub(crate) fn mark_text(mark: Mark) -> &'static str {
    match mark {
        Mark::Values => "values",
        Mark::Period => "period",
        Mark::State => "state",
        Mark::Input => "input",
        Mark::Decide => "decide",
        Mark::At => "at",
        Mark::Message => "message",
        Mark::Send => "send",
        Mark::When => "when",
        Mark::On => "on",
        Mark::End => "end",
        Mark::If => "if",
        Mark::Then => "then",
        Mark::Else => "else",
        Mark::Not => "not",
        Mark::Has => "has",
        _ => symbol_text(mark),
    }
}

/// The symbol of a mark that isn't a word.
fn symbol_text(mark: Mark) -> &'static str {
    match mark {
        Mark::Open => "(",
        Mark::Close => ")",
        Mark::OpenSquare => "[",
        Mark::CloseSquare => "]",
        Mark::OpenCurly => "{",
        Mark::CloseCurly => "}",
        Mark::Colon => ":",
        Mark::Assign => ":=",
        Mark::Semicolon => ";",
        Mark::Comma => ",",
        _ => "",
    }
}

/// The word of a type.
pub(crate) fn type_text(ty: Ty) -> &'static str {
    match ty {
        Ty::Num => "num",
        Ty::Bool => "bool",
        Ty::Set => "set",
        Ty::Row => "row",
    }
}

/// The word of a constant.
pub(crate) fn constant_text(constant: Constant) -> &'static str {
    match constant {
        Constant::True => "true",
        Constant::False => "false",
        Constant::Empty => "empty",
        Constant::All => "all",
        Constant::Zero => "zero",
        Constant::Me => "me",
        Constant::Nodes => "n",
        Constant::Faults => "t",
        Constant::Round => "round",
        Constant::Phase => "phase",
        Constant::Dest => "dest",
        Constant::From => "from",
    }
}

/// The word of an operator on one value.
pub(crate) fn unary_text(operator: UnaryOperator) -> &'static str {
    match operator {
        UnaryOperator::Not => "not",
        UnaryOperator::Single => "single",
        UnaryOperator::Size => "size",
        UnaryOperator::Least => "least",
    }
}

/// The word or symbol of an operator on two values.
pub(crate) fn binary_text(operator: BinaryOperator) -> &'static str {
    match operator {
        BinaryOperator::Add => "+",
        BinaryOperator::Sub => "-",
        BinaryOperator::Div => "div",
        BinaryOperator::Mod => "mod",
        BinaryOperator::Equal => "=",
        BinaryOperator::Differs => "<>",
        BinaryOperator::Less => "<",
        BinaryOperator::AtMost => "<=",
        BinaryOperator::More => ">",
        BinaryOperator::AtLeast => ">=",
        BinaryOperator::And => "and",
        BinaryOperator::Or => "or",
        BinaryOperator::Union => "union",
        BinaryOperator::Inter => "inter",
        BinaryOperator::Minus => "minus",
        BinaryOperator::Has => "has",
        BinaryOperator::Entry => "[..]",
    }
}

/// The word or symbol of a token; nothing of a name or a number.
pub(crate) fn word_text(word: Word<'_>) -> &'static str {
    match word {
        Word::Name(_) | Word::Number(_) => "",
        Word::Mark(mark) => mark_text(mark),
        Word::Kind(ty) => type_text(ty),
        Word::Fixed(constant) => constant_text(constant),
        Word::Call(operator) => unary_text(operator),
        Word::Infix(operator) => binary_text(operator),
    }
}

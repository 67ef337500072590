//! Which keyword or symbol some bytes spell.
ghost use Rattle.std.specs.Prelude.{◌≡◌, option_map};
ghost use Rattle.std.specs.Str.{bytes_eq};
ghost use Rattle.round_lang.specs.Keywords as spec;
ghost use Rattle.round_lang.specs.CodeTokens.{lexeme_of};

use crate::expr::{BinaryOperator, Constant, Ty, UnaryOperator};
use crate::token::{Mark, Word};

fn is_text(a: &[u8], b: &[u8]) -> bool
    ensures { result ≡ bytes_eq a.now b.now }
{
    a == b
}

/// A keyword that begins a part of a program.
#[tactic(auto, unfolding(crate::specs::Keywords::frame_word))]
fn frame_word(name: &[u8]) -> Option<Mark>
    ensures { result ≡ spec.frame_word name.now }
{
    if is_text(name, b"values") {
        Some(Mark::Values)
    } else if is_text(name, b"period") {
        Some(Mark::Period)
    } else if is_text(name, b"state") {
        Some(Mark::State)
    } else if is_text(name, b"input") {
        Some(Mark::Input)
    } else if is_text(name, b"decide") {
        Some(Mark::Decide)
    } else if is_text(name, b"at") {
        Some(Mark::At)
    } else if is_text(name, b"message") {
        Some(Mark::Message)
    } else if is_text(name, b"send") {
        Some(Mark::Send)
    } else if is_text(name, b"when") {
        Some(Mark::When)
    } else if is_text(name, b"on") {
        Some(Mark::On)
    } else if is_text(name, b"end") {
        Some(Mark::End)
    } else {
        None
    }
}

/// A keyword of an expression that is no operator between two operands.
#[tactic(auto, unfolding(crate::specs::Keywords::choice_word))]
fn choice_word(name: &[u8]) -> Option<Mark>
    ensures { result ≡ spec.choice_word name.now }
{
    if is_text(name, b"if") {
        Some(Mark::If)
    } else if is_text(name, b"then") {
        Some(Mark::Then)
    } else if is_text(name, b"else") {
        Some(Mark::Else)
    } else if is_text(name, b"not") {
        Some(Mark::Not)
    } else if is_text(name, b"has") {
        Some(Mark::Has)
    } else {
        None
    }
}

#[tactic(auto, unfolding(crate::specs::Keywords::type_word))]
fn type_word(name: &[u8]) -> Option<Ty>
    ensures { result ≡ spec.type_word name.now }
{
    if is_text(name, b"num") {
        Some(Ty::Num)
    } else if is_text(name, b"bool") {
        Some(Ty::Bool)
    } else if is_text(name, b"set") {
        Some(Ty::Set)
    } else if is_text(name, b"row") {
        Some(Ty::Row)
    } else {
        None
    }
}

#[tactic(auto, unfolding(crate::specs::Keywords::operator_word))]
fn operator_word(name: &[u8]) -> Option<BinaryOperator>
    ensures { result ≡ spec.operator_word name.now }
{
    if is_text(name, b"or") {
        Some(BinaryOperator::Or)
    } else if is_text(name, b"and") {
        Some(BinaryOperator::And)
    } else if is_text(name, b"union") {
        Some(BinaryOperator::Union)
    } else if is_text(name, b"minus") {
        Some(BinaryOperator::Minus)
    } else if is_text(name, b"inter") {
        Some(BinaryOperator::Inter)
    } else if is_text(name, b"div") {
        Some(BinaryOperator::Div)
    } else if is_text(name, b"mod") {
        Some(BinaryOperator::Mod)
    } else {
        None
    }
}

#[tactic(auto, unfolding(crate::specs::Keywords::constant_word))]
fn constant_word(name: &[u8]) -> Option<Constant>
    ensures { result ≡ spec.constant_word name.now }
{
    if is_text(name, b"true") {
        Some(Constant::True)
    } else if is_text(name, b"false") {
        Some(Constant::False)
    } else if is_text(name, b"empty") {
        Some(Constant::Empty)
    } else if is_text(name, b"all") {
        Some(Constant::All)
    } else if is_text(name, b"zero") {
        Some(Constant::Zero)
    } else if is_text(name, b"me") {
        Some(Constant::Me)
    } else if is_text(name, b"n") {
        Some(Constant::Nodes)
    } else if is_text(name, b"t") {
        Some(Constant::Faults)
    } else if is_text(name, b"round") {
        Some(Constant::Round)
    } else if is_text(name, b"phase") {
        Some(Constant::Phase)
    } else if is_text(name, b"dest") {
        Some(Constant::Dest)
    } else if is_text(name, b"from") {
        Some(Constant::From)
    } else {
        None
    }
}

/// A call of one argument.
#[tactic(auto, unfolding(crate::specs::Keywords::call_word))]
fn call_word(name: &[u8]) -> Option<UnaryOperator>
    ensures { result ≡ spec.call_word name.now }
{
    if is_text(name, b"single") {
        Some(UnaryOperator::Single)
    } else if is_text(name, b"size") {
        Some(UnaryOperator::Size)
    } else if is_text(name, b"least") {
        Some(UnaryOperator::Least)
    } else {
        None
    }
}

/// The keyword that is spelt, if one is.
#[tactic(auto, unfolding(crate::specs::Keywords::keyword))]
pub(crate) fn keyword(name: &[u8]) -> Option<Word<'static>>
    ensures { option_map lexeme_of result ≡ spec.keyword name.now }
{
    if let Some(mark) = frame_word(name) {
        return Some(Word::Mark(mark));
    }
    if let Some(mark) = choice_word(name) {
        return Some(Word::Mark(mark));
    }
    if let Some(ty) = type_word(name) {
        return Some(Word::Kind(ty));
    }
    if let Some(operator) = operator_word(name) {
        return Some(Word::Infix(operator));
    }
    if let Some(constant) = constant_word(name) {
        return Some(Word::Fixed(constant));
    }
    match call_word(name) {
        Some(operator) => Some(Word::Call(operator)),
        None => None,
    }
}

/// The symbol of one byte.
#[tactic(auto, unfolding(crate::specs::Keywords::short_symbol))]
pub(crate) fn short_symbol(a: u8) -> Option<Word<'static>>
    ensures { option_map lexeme_of result ≡ spec.short_symbol a }
{
    match a {
        b'(' => Some(Word::Mark(Mark::Open)),
        b')' => Some(Word::Mark(Mark::Close)),
        b'[' => Some(Word::Mark(Mark::OpenSquare)),
        b']' => Some(Word::Mark(Mark::CloseSquare)),
        b'{' => Some(Word::Mark(Mark::OpenCurly)),
        b'}' => Some(Word::Mark(Mark::CloseCurly)),
        b':' => Some(Word::Mark(Mark::Colon)),
        b';' => Some(Word::Mark(Mark::Semicolon)),
        b',' => Some(Word::Mark(Mark::Comma)),
        b'=' => Some(Word::Infix(BinaryOperator::Equal)),
        b'<' => Some(Word::Infix(BinaryOperator::Less)),
        b'>' => Some(Word::Infix(BinaryOperator::More)),
        b'+' => Some(Word::Infix(BinaryOperator::Add)),
        b'-' => Some(Word::Infix(BinaryOperator::Sub)),
        _ => None,
    }
}

/// The symbol of two bytes.
#[tactic(auto, unfolding(crate::specs::Keywords::long_symbol))]
pub(crate) fn long_symbol(a: u8, b: u8) -> Option<Word<'static>>
    ensures { option_map lexeme_of result ≡ spec.long_symbol a b }
{
    match (a, b) {
        (b':', b'=') => Some(Word::Mark(Mark::Assign)),
        (b'<', b'>') => Some(Word::Infix(BinaryOperator::Differs)),
        (b'<', b'=') => Some(Word::Infix(BinaryOperator::AtMost)),
        (b'>', b'=') => Some(Word::Infix(BinaryOperator::AtLeast)),
        _ => None,
    }
}

//! Which common mistake was made at a place.

use crate::kind::TokenKind;
use crate::mistake::Mistake;
use crate::nearest::{Meant, nearest};
use crate::spelling::word_text;
use crate::spot::{Found, Spot};
use round_lang::{BinaryOperator, Constant, Mark, Token, Word};
use run_events::NoMemory;
use std::alloc::Global;

/// The words that can stand where no name can, and their kinds.
const WORDS: [(&'static str, TokenKind); 24] = [
    ("values", TokenKind::Mark(Mark::Values)),
    ("period", TokenKind::Mark(Mark::Period)),
    ("state", TokenKind::Mark(Mark::State)),
    ("input", TokenKind::Mark(Mark::Input)),
    ("decide", TokenKind::Mark(Mark::Decide)),
    ("at", TokenKind::Mark(Mark::At)),
    ("message", TokenKind::Mark(Mark::Message)),
    ("send", TokenKind::Mark(Mark::Send)),
    ("when", TokenKind::Mark(Mark::When)),
    ("on", TokenKind::Mark(Mark::On)),
    ("end", TokenKind::Mark(Mark::End)),
    ("then", TokenKind::Mark(Mark::Then)),
    ("else", TokenKind::Mark(Mark::Else)),
    ("num", TokenKind::Type),
    ("bool", TokenKind::Type),
    ("set", TokenKind::Type),
    ("row", TokenKind::Type),
    ("or", TokenKind::Or),
    ("and", TokenKind::And),
    ("union", TokenKind::Sum),
    ("minus", TokenKind::Sum),
    ("div", TokenKind::Product),
    ("mod", TokenKind::Product),
    ("inter", TokenKind::Product),
];

/// Whether the tokens are `values` and a number.
fn is_values(front: &[Token<'_>]) -> bool {
    match front {
        [values, number] => {
            TokenKind::of(values.word) == TokenKind::Mark(Mark::Values)
                && TokenKind::of(number.word) == TokenKind::Number
        }
        _ => false,
    }
}

/// The mistake of a `|`.
fn bar_mistake(spot: &Spot<'_, '_>) -> Mistake {
    if spot.is_behind_name(Mark::OpenCurly) {
        Mistake::SuchThat
    } else if is_row(spot) {
        Mistake::RowOfEntries
    } else {
        Mistake::Bar
    }
}

/// The mistake of a character that begins no word.
fn character_mistake(spot: &Spot<'_, '_>, byte: u8) -> Mistake {
    match byte {
        b'*' => Mistake::Product,
        b'/' => Mistake::Quotient,
        b'%' => Mistake::Remainder,
        b'!' if spot.second_byte == Some(b'=') => Mistake::Different,
        b'!' => Mistake::Negation,
        b'&' => Mistake::Ampersand,
        b'|' => bar_mistake(spot),
        b'.' if is_values(spot.front) => Mistake::RangeOfValues,
        _ => Mistake::Character,
    }
}

/// Whether the variable of a row, or the `:` behind it, has to stand there.
fn is_row(spot: &Spot<'_, '_>) -> bool {
    if spot.follows(TokenKind::Mark(Mark::OpenSquare)) {
        return spot.needs(TokenKind::Name);
    }
    spot.is_behind_name(Mark::OpenSquare) && spot.needs(TokenKind::Mark(Mark::Colon))
}

/// The mistake behind the `{` of a set.
fn set_mistake(spot: &Spot<'_, '_>, kind: TokenKind) -> Mistake {
    let comma = TokenKind::Mark(Mark::Comma);
    let is_empty = spot.follows(TokenKind::Mark(Mark::OpenCurly));
    if is_empty && kind == TokenKind::Mark(Mark::CloseCurly) {
        Mistake::SetOfNone
    } else if kind == comma || spot.next == Some(comma) {
        Mistake::SetOfSeveral
    } else {
        Mistake::SetOfOne
    }
}

/// The mistake of an `=` or another comparison.
fn comparison_mistake(spot: &Spot<'_, '_>, kind: TokenKind) -> Option<Mistake> {
    let is_equal = kind == TokenKind::Equal;
    if is_equal && spot.follows(TokenKind::Equal) {
        Some(Mistake::DoubleEqual)
    } else if is_equal && spot.can_mark(Mark::Assign) {
        Some(Mistake::EqualForAssign)
    } else if spot.is_behind_operand() {
        Some(Mistake::SecondComparison)
    } else {
        None
    }
}

/// The mistake of an operator, or of a bracket behind a name.
fn operator_mistake(spot: &Spot<'_, '_>, kind: TokenKind) -> Option<Mistake> {
    let is_behind_name = spot.follows(TokenKind::Name);
    match kind {
        TokenKind::Equal | TokenKind::Comparison => comparison_mistake(spot, kind),
        TokenKind::Sum if spot.can_mark(Mark::Assign) => Some(Mistake::OperatorForAssign),
        TokenKind::Sum if spot.is_operand() && is_minus_sign(spot) => Some(Mistake::Negative),
        TokenKind::Mark(Mark::Open) if spot.is_behind_operand() && is_behind_name => {
            Some(Mistake::Called)
        }
        TokenKind::Mark(Mark::OpenSquare) if spot.can_mark(Mark::Assign) => {
            Some(Mistake::EntryAssigned)
        }
        _ => None,
    }
}

/// Whether `-` stands there.
fn is_minus_sign(spot: &Spot<'_, '_>) -> bool {
    matches!(spot.found, Found::Token(Word::Infix(BinaryOperator::Sub)))
}

/// The mistake of a name in the place of an operator.
fn name_mistake(spot: &Spot<'_, '_>) -> Option<Mistake> {
    match spot.name()? {
        "in" if spot.is_behind_operand() => Some(Mistake::In),
        "elif" if spot.can_mark(Mark::Else) => Some(Mistake::ElseIf),
        "to" if is_values(spot.front) => Some(Mistake::RangeOfValues),
        _ => None,
    }
}

/// Whether an expression ends before such a token.
fn ends_expression(kind: TokenKind) -> bool {
    match kind {
        TokenKind::End => true,
        TokenKind::Mark(mark) => {
            is_beginning(mark)
                || matches!(mark, Mark::Close | Mark::CloseSquare | Mark::CloseCurly)
                || matches!(
                    mark,
                    Mark::Comma | Mark::Semicolon | Mark::Colon | Mark::End
                )
        }
        _ => false,
    }
}

/// Whether a declaration or a block begins with the mark.
fn is_beginning(mark: Mark) -> bool {
    matches!(mark, Mark::State | Mark::Input | Mark::Decide | Mark::At)
}

/// The mistake within an expression.
fn expression_mistake(spot: &Spot<'_, '_>, kind: TokenKind) -> Option<Mistake> {
    if spot.is_behind(Mark::OpenCurly) {
        return Some(set_mistake(spot, kind));
    }
    if is_row(spot) {
        return Some(Mistake::RowOfEntries);
    }
    if is_call_without_brackets(spot) {
        return Some(Mistake::CalledWithoutBrackets);
    }
    if spot.can_mark(Mark::Else) && ends_expression(kind) {
        return Some(Mistake::NoElse);
    }
    operator_mistake(spot, kind).or(name_mistake(spot))
}

/// Whether the brackets of a call have to begin there.
fn is_call_without_brackets(spot: &Spot<'_, '_>) -> bool {
    spot.can_mark(Mark::Open)
        && (spot.follows(TokenKind::Call) || spot.follows(TokenKind::Mark(Mark::Has)))
}

/// The word that is spelt nearly as the name that stands there, if that word could stand there.
fn misspelt(alloc: Global, spot: &Spot<'_, '_>) -> Result<Option<&'static str>, NoMemory> {
    let Some(name) = spot.name() else {
        return Ok(None);
    };
    if is_assignment_next(spot) {
        return Ok(None);
    }
    let mut words: Vec<Meant<'static>> = Vec::new(alloc);
    for (word, kind) in WORDS {
        if spot.can(kind) {
            words.push(Meant::word(word))?;
        }
    }
    match nearest(alloc, name, &words)? {
        Some(near) => Ok(Some(near.text)),
        None => Ok(None),
    }
}

/// Whether an assignment lacks its end, and the next one begins.
fn is_assignment_next(spot: &Spot<'_, '_>) -> bool {
    spot.can_mark(Mark::Semicolon) && spot.next == Some(TokenKind::Mark(Mark::Assign))
}

/// The mistake of a variable's type or first value.
fn declaration_mistake(spot: &Spot<'_, '_>, kind: TokenKind) -> Option<Mistake> {
    if spot.can(TokenKind::Type) {
        return Some(Mistake::NoType);
    }
    if is_values(spot.front) && is_minus_sign(spot) {
        return Some(Mistake::RangeOfValues);
    }
    if !spot.needs(TokenKind::Equal) {
        return None;
    }
    match kind {
        TokenKind::Mark(Mark::Assign) => Some(Mistake::AssignForEqual),
        TokenKind::Mark(Mark::Semicolon) | TokenKind::End => Some(Mistake::NoFirstValue),
        TokenKind::Mark(mark) if is_beginning(mark) => Some(Mistake::NoFirstValue),
        _ => None,
    }
}

/// Whether an expression that is no name begins with such a token.
fn begins_expression(kind: TokenKind) -> bool {
    match kind {
        TokenKind::Call => true,
        TokenKind::Mark(mark) => matches!(
            mark,
            Mark::If | Mark::Not | Mark::Has | Mark::Open | Mark::OpenSquare | Mark::OpenCurly
        ),
        _ => false,
    }
}

/// Whether a part of a program ends there that ends with no semicolon.
fn is_behind_part(spot: &Spot<'_, '_>) -> bool {
    spot.can_mark(Mark::State)
        || spot.can_mark(Mark::Send)
        || spot.can_mark(Mark::On)
        || spot.is_in_assignments()
}

/// The mistake of a part of a block.
fn block_mistake(spot: &Spot<'_, '_>, kind: TokenKind) -> Option<Mistake> {
    if spot.needs(TokenKind::Mark(Mark::Colon)) {
        let is_field = spot.is_behind_name(Mark::Open) || spot.is_behind_name(Mark::Comma);
        return is_field.then_some(Mistake::FieldWithoutType);
    }
    if spot.needs(TokenKind::Mark(Mark::Open)) {
        let is_sent = spot.follows(TokenKind::Mark(Mark::Colon));
        return is_sent.then_some(Mistake::SentWithoutBrackets);
    }
    match kind {
        TokenKind::Mark(Mark::Colon) if spot.can_mark(Mark::Assign) => {
            Some(Mistake::ColonForAssign)
        }
        TokenKind::Constant if spot.can_mark(Mark::At) && is_round(spot) => {
            Some(Mistake::RoundForAt)
        }
        TokenKind::Mark(Mark::Semicolon) if is_behind_part(spot) => Some(Mistake::Semicolon),
        TokenKind::End if is_behind_assignments(spot) => Some(Mistake::NoEnd),
        TokenKind::Mark(Mark::At) if is_behind_assignments(spot) => Some(Mistake::NoEnd),
        TokenKind::Mark(mark) if is_beginning(mark) && spot.is_in_assignments() => {
            Some(Mistake::LateDeclaration)
        }
        _ => None,
    }
}

/// Whether `round` stands there.
fn is_round(spot: &Spot<'_, '_>) -> bool {
    matches!(spot.found, Found::Token(Word::Fixed(Constant::Round)))
}

/// Whether `end:` could stand there.
fn is_behind_assignments(spot: &Spot<'_, '_>) -> bool {
    spot.can(TokenKind::Name) && spot.can_mark(Mark::End)
}

/// Whether a word of the language stands there, and no symbol.
fn is_word(spot: &Spot<'_, '_>) -> bool {
    match spot.found {
        Found::Token(word) => word_text(word)
            .as_bytes()
            .first()
            .is_some_and(|byte| byte.is_ascii_alphabetic()),
        _ => false,
    }
}

/// The mistake of a word where a name could stand.
fn word_for_name(spot: &Spot<'_, '_>, kind: TokenKind) -> Option<Mistake> {
    if spot.follows(TokenKind::Mark(Mark::Decide)) && begins_expression(kind) {
        return Some(Mistake::ExpressionDecided);
    }
    if !spot.can(TokenKind::Name) || !is_word(spot) {
        return None;
    }
    match kind {
        TokenKind::Mark(Mark::If) if spot.is_in_assignments() => Some(Mistake::IfAssigns),
        TokenKind::Mark(_) if spot.is_in_assignments() => None,
        _ => Some(Mistake::WordAsName),
    }
}

/// The mistake of a word, or of an assignment without its end.
fn word_mistake(spot: &Spot<'_, '_>, kind: TokenKind) -> Option<Mistake> {
    if spot.can_mark(Mark::Semicolon) {
        return ends_assignment(kind).then_some(Mistake::NoSemicolon);
    }
    if !spot.is_operand() {
        return word_for_name(spot, kind);
    }
    match kind {
        TokenKind::Mark(Mark::If | Mark::Not) => Some(Mistake::Bare),
        _ => None,
    }
}

/// Whether an assignment has ended before such a token.
fn ends_assignment(kind: TokenKind) -> bool {
    matches!(
        kind,
        TokenKind::Name | TokenKind::End | TokenKind::Mark(Mark::End | Mark::At)
    )
}

/// The common mistake that was made, if it's one.
pub(crate) fn mistake_of(alloc: Global, spot: &Spot<'_, '_>) -> Result<Option<Mistake>, NoMemory> {
    if spot.is_comment {
        return Ok(Some(Mistake::Comment));
    }
    if let Found::Byte(byte) = spot.found {
        return Ok(Some(character_mistake(spot, byte)));
    }
    let kind = spot.kind();
    if let Some(mistake) = expression_mistake(spot, kind) {
        return Ok(Some(mistake));
    }
    if let Some(word) = misspelt(alloc, spot)? {
        return Ok(Some(Mistake::Misspelt(word)));
    }
    let part = declaration_mistake(spot, kind).or(block_mistake(spot, kind));
    Ok(part.or(word_mistake(spot, kind)))
}

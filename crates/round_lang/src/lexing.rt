//! From a text to its tokens.
ghost use Rattle.std.specs.Prelude.{◌≡◌, ◌≢◌, ◌<◌, ◌≤◌, ◌+◌, ◌↔◌, length, slice_index, drop, IfOk};
ghost use Rattle.std.specs.Prelude.{IfErr, IsNone, IsTrue, List};
ghost use Rattle.std.specs.Char.{is_ascii_digit};
ghost use Rattle.std.specs.List.{list_all, prefix_len};
ghost use Rattle.round_lang.specs.Keywords as words;
ghost use Rattle.round_lang.specs.Tokens as spec;
ghost use Rattle.round_lang.specs.Scanning.{step, symbol_step, step_of};
ghost use Rattle.round_lang.specs.CodeTokens.{lexemes};
ghost use Rattle.round_lang.specs.Lexemes.{Lexeme};

use crate::fault::Span;
use crate::keywords::{keyword, long_symbol, short_symbol};
use crate::limits::MAX_NAME;
use crate::name::Name;
use crate::token::{Token, Word};
use std::alloc::{AllocError, AllocFailed, Global};

/// What stands at the front of a text, with its length.
#[derive(Clone, Copy, Debug)]
pub(crate) enum Piece<'a> {
    Blank(usize),
    Word(Word<'a>, usize),
    Bad,
}

fn is_blank(b: u8) -> bool
    ensures { result ≡ spec.is_blank b }
{
    matches!(b, b' ' | b'\t' | b'\r' | b'\n')
}

fn begins_name(b: u8) -> bool
    ensures { result ≡ spec.begins_name b }
{
    b.is_ascii_alphabetic() || b == b'_'
}

fn is_in_name(b: u8) -> bool
    ensures { result ≡ spec.is_in_name b }
{
    b.is_ascii_alphanumeric() || b == b'_'
}

/// How many bytes of a name stand at the front.
fn name_len(text: &[u8]) -> usize
    ensures value { result ≡ prefix_len spec.is_in_name text.now }
    ensures within { result ≤ length text.now }
{
    text.iter().take_while(|b| is_in_name(**b)).count()
}

fn digits_len(text: &[u8]) -> usize
    ensures value { result ≡ prefix_len is_ascii_digit text.now }
    ensures within { result ≤ length text.now }
{
    text.iter().take_while(|b| b.is_ascii_digit()).count()
}

fn line_len(text: &[u8]) -> usize
    ensures value { result ≡ spec.line_len text.now }
    ensures within { result ≤ length text.now }
{
    text.iter().take_while(|b| **b != b'\n').count()
}

/// Whether a name may have these bytes after its first.
fn are_in_name(bytes: &[u8]) -> bool
    ensures { result ≡ list_all spec.is_in_name bytes.now }
{
    bytes.iter().all(|b| is_in_name(*b))
}

/// Whether the bytes are a letter or `_`, and then letters, digits and `_`.
fn is_spelt_as_name(bytes: &[u8]) -> bool
    ensures { result ≡ spec.is_name bytes.now }
{
    match bytes {
        [first, rest @ ..] => begins_name(*first) && are_in_name(rest),
        [] => false,
    }
}

/// Whether the bytes are a name within its limit.
pub(crate) fn is_name(bytes: &[u8]) -> bool
    ensures { IsTrue result ↔ spec.IsName bytes.now }
{
    bytes.len() <= MAX_NAME && is_spelt_as_name(bytes) && keyword(bytes).is_none()
}

/// The name that these bytes are.
fn name_of(bytes: &[u8]) -> Name<'_>
    requires spelt { IsTrue (spec.is_name bytes.now) }
    requires no_keyword { IsNone (words.keyword bytes.now) }
    ensures { result.text.now ≡ bytes.now }
{
    match str::from_utf8(bytes) {
        Ok(text) => Name { text },
        Err(_) => unreachable!(),
    }
}

#[tactic(auto, unfolding(crate::specs::Scanning::symbol_step))]
fn symbol_piece(text: &[u8]) -> Piece<'_>
    requires { 0 < length text.now }
    ensures { step_of result ≡ symbol_step (slice_index text.now 0) (drop 1 text.now) }
{
    if let [a, b, ..] = text {
        if let Some(word) = long_symbol(*a, *b) {
            return Piece::Word(word, 2);
        }
    }
    match short_symbol(text[0]) {
        Some(word) => Piece::Word(word, 1),
        None => Piece::Bad,
    }
}

/// The piece at the front.
#[tactic(auto, unfolding(crate::specs::Scanning::step))]
fn next_piece(text: &[u8]) -> Piece<'_>
    ensures { step_of result ≡ step text.now }
{
    let [first, rest @ ..] = text else {
        return Piece::Bad;
    };
    let first = *first;
    if is_blank(first) {
        Piece::Blank(1)
    } else if first == b'#' {
        Piece::Blank(1 + line_len(rest))
    } else if begins_name(first) {
        let len = 1 + name_len(rest);
        let name = &text[..len];
        match keyword(name) {
            Some(word) => Piece::Word(word, len),
            None => Piece::Word(Word::Name(name_of(name)), len),
        }
    } else if first.is_ascii_digit() {
        let len = 1 + digits_len(rest);
        Piece::Word(Word::Number(&text[..len]), len)
    } else {
        symbol_piece(text)
    }
}

/// How many bytes the character has that begins with this byte, of a text in UTF-8.
fn char_len(first: u8) -> usize {
    if first < 0x80 {
        1
    } else if first < 0xE0 {
        2
    } else if first < 0xF0 {
        3
    } else {
        4
    }
}

/// Why a text has no tokens.
#[derive(Clone, Copy, PartialEq, Eq, Debug)]
pub enum TokenFault {
    NoMemory,
    BadToken(Span),
}

impl From<AllocError> for TokenFault {
    ghost use Rattle.std.specs.Prelude.{◌≡◌};
    ghost use Rattle.round_lang.specs.declared.lexing.TokenFault.TheVariants as fault;

    ghost from_gives = { λ _ e. e ≡ fault.NoMemory };

    fn from(_error: AllocError) -> TokenFault {
        TokenFault::NoMemory
    }
}

impl<T: Drop> From<AllocFailed<T>> for TokenFault {
    ghost use Rattle.std.specs.Prelude.{◌≡◌};
    ghost use Rattle.round_lang.specs.declared.lexing.TokenFault.TheVariants as fault;

    ghost from_gives = { λ _ e. e ≡ fault.NoMemory };

    fn from(_error: AllocFailed<T>) -> TokenFault {
        TokenFault::NoMemory
    }
}

/// The tokens of the text.
pub fn tokens(alloc: Global, text: &[u8]) -> Result<Vec<Token<'_>>, TokenFault>
    ensures found { IfOk result (λ v. spec.Tokens text.now (lexemes v.items)) }
    // The text has no other tokens.
    ensures only { IfOk result (λ v. (ls : List Lexeme) → spec.Tokens text.now ls
        → ls ≡ lexemes v.items) }
    // Memory aside, only a text with no list of tokens is refused.
    ensures refused { IfErr result (λ e. e ≢ TokenFault.NoMemory
        → (ls : List Lexeme) → spec.Tokens text.now ls → ⊥) }
{
    let mut out = Vec::new(alloc);
    let mut at = 0;
    while at < text.len() {
        match next_piece(&text[at..]) {
            Piece::Blank(len) => at += len,
            Piece::Word(word, len) => {
                let span = Span {
                    first: at,
                    after: at + len,
                };
                out.push(Token { word, span })?;
                at += len;
            }
            Piece::Bad => {
                return Err(TokenFault::BadToken(Span {
                    first: at,
                    after: at.saturating_add(char_len(text[at])),
                }));
            }
        }
    }
    Ok(out)
}

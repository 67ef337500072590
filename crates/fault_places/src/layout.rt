//! Where the parts of a program stand among its tokens.

use crate::parts::{Wanted, cut, inside, pieces, span_of, split};
use round_lang::{Mark, Span, Token, Word};
use run_events::NoMemory;
use std::alloc::Global;

/// A name of a text, and where it stands.
#[derive(Clone, Copy, PartialEq, Eq, Debug)]
pub struct NameAt<'a> {
    pub text: &'a str,
    pub span: Span,
}

/// A declared variable, and the tokens of its first value; the input has none.
#[derive(Clone, Copy)]
pub(crate) struct VariablePlace<'t, 'a> {
    pub(crate) name: NameAt<'a>,
    pub(crate) start: &'t [Token<'a>],
}

/// An assignment.
#[derive(Clone, Copy)]
pub(crate) struct AssignmentPlace<'t, 'a> {
    pub(crate) target: NameAt<'a>,
    pub(crate) formula: &'t [Token<'a>],
}

/// A block.
#[derive(Drop)]
pub(crate) struct BlockPlace<'t, 'a> {
    pub(crate) number: Span,
    pub(crate) message: Span,
    pub(crate) fields: Vec<NameAt<'a>>,
    pub(crate) condition: &'t [Token<'a>],
    /// What is sent, with its brackets.
    pub(crate) sent_at: &'t [Token<'a>],
    pub(crate) sent: Vec<&'t [Token<'a>]>,
    pub(crate) on_message: Vec<AssignmentPlace<'t, 'a>>,
    pub(crate) end: Vec<AssignmentPlace<'t, 'a>>,
}

/// A program's declarations and blocks, each list in the text's order.
#[derive(Drop)]
pub(crate) struct Layout<'t, 'a> {
    pub(crate) variables: Vec<VariablePlace<'t, 'a>>,
    pub(crate) decides: Vec<NameAt<'a>>,
    pub(crate) blocks: Vec<BlockPlace<'t, 'a>>,
    /// Where the declarations end: at the first block, or behind the last token.
    pub(crate) declarations_end: Span,
}

/// The name that a token is.
pub(crate) fn name_at<'a>(token: &Token<'a>) -> Option<NameAt<'a>> {
    match token.word {
        Word::Name(name) => Some(NameAt {
            text: name.text,
            span: token.span,
        }),
        _ => None,
    }
}

/// The name that the first token is.
fn first_name<'a>(part: &[Token<'a>]) -> Option<NameAt<'a>> {
    name_at(part.first()?)
}

/// `NAME := EXPRESSION`.
fn assignment<'t, 'a>(part: &'t [Token<'a>]) -> Option<AssignmentPlace<'t, 'a>> {
    let [name, _, formula @ ..] = part else {
        return None;
    };
    Some(AssignmentPlace {
        target: name_at(name)?,
        formula,
    })
}

/// The assignments of a list.
fn assignments<'t, 'a>(
    alloc: Global,
    part: &'t [Token<'a>],
) -> Result<Vec<AssignmentPlace<'t, 'a>>, NoMemory> {
    let mut places = Vec::new(alloc);
    for piece in &pieces(alloc, part, Wanted::Mark(Mark::Semicolon))? {
        if let Some(place) = assignment(piece) {
            places.push(place)?;
        }
    }
    Ok(places)
}

/// The fields between the brackets of a message.
fn fields<'a>(alloc: Global, part: &[Token<'a>]) -> Result<Vec<NameAt<'a>>, NoMemory> {
    let mut fields = Vec::new(alloc);
    for piece in &pieces(alloc, part, Wanted::Mark(Mark::Comma))? {
        if let Some(name) = first_name(piece) {
            fields.push(name)?;
        }
    }
    Ok(fields)
}

/// The tokens behind the first ones.
fn skipped<'t, 'a>(part: &'t [Token<'a>], count: usize) -> &'t [Token<'a>] {
    let (_, rest) = cut(part, count);
    rest
}

/// A block behind `at NUMBER : message`.
fn block<'t, 'a>(
    alloc: Global,
    number: Span,
    message: Span,
    part: &'t [Token<'a>],
) -> Result<BlockPlace<'t, 'a>, NoMemory> {
    let (head, rest) = split(part, Wanted::Mark(Mark::Send));
    let (condition, rest) = split(skipped(rest, 1), Wanted::Mark(Mark::Colon));
    let (sent_at, rest) = split(rest, Wanted::Mark(Mark::On));
    let (on_message, rest) = split(skipped(rest, 2), Wanted::Mark(Mark::End));
    Ok(BlockPlace {
        number,
        message,
        fields: fields(alloc, inside(head))?,
        condition,
        sent_at,
        sent: pieces(alloc, inside(sent_at), Wanted::Mark(Mark::Comma))?,
        on_message: assignments(alloc, on_message)?,
        end: assignments(alloc, skipped(rest, 1))?,
    })
}

/// The declarations and blocks, each with its first word.
fn chunks<'t, 'a>(alloc: Global, part: &'t [Token<'a>]) -> Result<Vec<&'t [Token<'a>]>, NoMemory> {
    let mut chunks = Vec::new(alloc);
    let (_, mut rest) = cut(part, 0);
    for _chunk in 0..part.len() {
        if rest.is_empty() {
            break;
        }
        let (body, _) = split(skipped(rest, 1), Wanted::Beginning);
        let (chunk, behind) = cut(rest, body.len() + 1);
        chunks.push(chunk)?;
        rest = behind;
    }
    Ok(chunks)
}

impl<'t, 'a> Layout<'t, 'a> {
    /// The layout of the program that the tokens are; `end` is where they end.
    pub(crate) fn new(
        alloc: Global,
        tokens: &'t [Token<'a>],
        end: usize,
    ) -> Result<Layout<'t, 'a>, NoMemory> {
        let mut layout = Layout {
            variables: Vec::new(alloc),
            decides: Vec::new(alloc),
            blocks: Vec::new(alloc),
            declarations_end: Span {
                first: end,
                after: end,
            },
        };
        for chunk in &chunks(alloc, skipped(tokens, 4))? {
            layout.add(alloc, chunk)?;
        }
        Ok(layout)
    }

    /// Adds a declaration or a block.
    fn add(&mut self, alloc: Global, chunk: &'t [Token<'a>]) -> Result<(), NoMemory> {
        let [first, second, rest @ ..] = chunk else {
            return Ok(());
        };
        match (first.word, name_at(second)) {
            (Word::Mark(Mark::State), Some(name)) => {
                let start = skipped(rest, 3);
                self.variables.push(VariablePlace { name, start })?;
            }
            (Word::Mark(Mark::Input), Some(name)) => {
                self.variables.push(VariablePlace { name, start: rest })?;
            }
            (Word::Mark(Mark::Decide), Some(name)) => self.decides.push(name)?,
            (Word::Mark(Mark::At), None) => self.add_block(alloc, first.span, second.span, rest)?,
            _ => {}
        }
        Ok(())
    }

    /// Adds a block, of which the rest stands behind its number.
    fn add_block(
        &mut self,
        alloc: Global,
        at: Span,
        number: Span,
        rest: &'t [Token<'a>],
    ) -> Result<(), NoMemory> {
        let [_, message, rest @ ..] = rest else {
            return Ok(());
        };
        if self.blocks.is_empty() {
            self.declarations_end = Span {
                first: at.first,
                after: at.first,
            };
        }
        self.blocks.push(block(alloc, number, message.span, rest)?)?;
        Ok(())
    }
}

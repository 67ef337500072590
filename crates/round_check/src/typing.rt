//! The parts of a program that have a wrong type.
ghost use Rattle.std.specs.Prelude.{◌≡◌, []};
ghost use Rattle.std.specs.List.{list_any};
ghost use Rattle.round_lang.specs.declared.program.Variable.{Variable as VariableTree};
ghost use Rattle.round_check.specs.Types.{context_of, context_with, wrong_start, wrong_sent};
ghost use Rattle.round_check.specs.Types.{wrong_assignment, wrong_decide, wrong_block};
ghost use Rattle.round_check.specs.Types.{wrong_program};

use crate::names::Names;
use crate::types::{Context, has_type, type_of, variable_type};
use round_lang::{
    Assignment, Block, Field, Formula, Identifier, Program, Ty, Variable, VariableKind,
};

fn wrong_start(context: &Context<'_>, kind: &VariableKind) -> bool
    ensures { result ≡ wrong_start (context_of context.now) kind.now }
{
    match kind {
        VariableKind::Input => false,
        VariableKind::State { ty, start } => !has_type(type_of(start.expr(), context), *ty),
    }
}

fn wrong_sent(context: &Context<'_>, fields: &[Field], sent: &[Formula]) -> bool
    ensures { result ≡ wrong_sent (context_of context.now) fields.now sent.now }
{
    match fields {
        [] => false,
        [field, fields @ ..] => match sent {
            [] => false,
            [formula, sent @ ..] => {
                !has_type(type_of(formula.expr(), context), field.ty)
                    || wrong_sent(context, fields, sent)
            }
        },
    }
}

fn wrong_assignment(context: &Context<'_>, assignment: &Assignment) -> bool
    ensures { result ≡ wrong_assignment (context_of context.now) assignment.now }
{
    match variable_type(context.variables, &assignment.target) {
        Some(ty) => !has_type(type_of(assignment.formula.expr(), context), ty),
        None => true,
    }
}

fn wrong_assignments(context: &Context<'_>, assignments: &[Assignment]) -> bool
    ensures { result ≡ list_any (wrong_assignment (context_of context.now)) assignments.now }
{
    assignments
        .iter()
        .any(|assignment| wrong_assignment(context, assignment))
}

fn wrong_decide(context: &Context<'_>, name: &Identifier) -> bool
    ensures { result ≡ wrong_decide (context_of context.now) name.now }
{
    !has_type(variable_type(context.variables, name), Ty::Set)
}

/// Whether something in a block has a wrong type; the context has no fields.
fn wrong_block<'a>(context: &Context<'a>, block: &'a Block) -> bool
    ensures { result ≡ wrong_block (context_of context.now) block.now }
{
    let on_message = Context {
        fields: block.fields(),
        ..*context
    };
    !has_type(type_of(block.condition().expr(), context), Ty::Bool)
        || wrong_sent(context, block.fields(), block.sent())
        || wrong_assignments(&on_message, block.on_message())
        || wrong_assignments(context, block.end())
}

fn wrong_starts(context: &Context<'_>) -> bool
    ensures { let c = context_of context.now in
        result ≡ list_any (λ (v : VariableTree). wrong_start c v.kind) c.variables }
{
    context
        .variables
        .iter()
        .any(|variable| wrong_start(context, &variable.kind))
}

fn wrong_blocks<'a>(context: &Context<'a>, blocks: &'a [Block]) -> bool
    ensures { result ≡ list_any (wrong_block (context_of context.now)) blocks.now }
{
    blocks.iter().any(|block| wrong_block(context, block))
}

fn wrong_decides(context: &Context<'_>, decides: &[Identifier]) -> bool
    ensures { result ≡ list_any (wrong_decide (context_of context.now)) decides.now }
{
    decides.iter().any(|name| wrong_decide(context, name))
}

/// Whether something in a program has a wrong type.
pub(crate) fn wrong_program(program: &Program) -> bool
    ensures { result ≡ wrong_program (context_with [] program.now) program.now }
{
    let context = Context {
        variables: program.variables(),
        fields: &[],
        bound: &Names::Outermost,
    };
    wrong_starts(&context)
        || wrong_blocks(&context, program.blocks())
        || wrong_decides(&context, program.decides())
}

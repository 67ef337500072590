//! The rules on names, and whether a program breaks one.
ghost use Rattle.std.specs.Prelude.{◌≡◌, ◌∷◌, ℕ, List, []};
ghost use Rattle.std.specs.List.{list_any};
ghost use Rattle.round_lang.specs.Tree.{Tree, tree_of};
ghost use Rattle.round_lang.specs.declared.program.Variable.{Variable as VariableTree};
ghost use Rattle.round_check.specs.Names.{names_of, has_field};
ghost use Rattle.round_check.specs.Rules.{scope_of, is_start, is_send, is_on_message, allows};
ghost use Rattle.round_check.specs.Rules.{readable, is_declared, is_field_elsewhere};
ghost use Rattle.round_check.specs.Rules.{is_state_at_start, breaks_constant, breaks_name};
ghost use Rattle.round_check.specs.Rules.{breaks_binder, breaks_target, within, breaks};
ghost use Rattle.round_check.specs.Rules.{start_scope, in_block, breaks_start, breaks_assignment};
ghost use Rattle.round_check.specs.Rules.{breaks_block, breaks_program};

use crate::names::{Names, declares, declares_state, has_field, some_field};
use round_lang::{
    Assignment, Block, Constant, Expr, Field, Formula, Identifier, Program, Variable, VariableKind,
};

/// A rule on the names of a program.
#[derive(Clone, Copy)]
pub(crate) enum Rule {
    /// A comprehension variable's name is not in use.
    Fresh,
    /// A name stands for something.
    Known,
    /// A name or constant may be used where it stands.
    Allowed,
}

/// A part of a program that expressions stand in: an initial value, `send` with its condition,
/// `on message` or `end`.
#[derive(Clone, Copy)]
pub(crate) enum Place {
    Start,
    Send,
    OnMessage,
    End,
}

impl Place {
    fn is_start(self) -> bool
        ensures { result ≡ is_start self }
    {
        matches!(self, Place::Start)
    }

    fn is_send(self) -> bool
        ensures { result ≡ is_send self }
    {
        matches!(self, Place::Send)
    }

    fn is_on_message(self) -> bool
        ensures { result ≡ is_on_message self }
    {
        matches!(self, Place::OnMessage)
    }
}

/// Where an expression stands. The fields are those of its block; an initial value has none.
#[derive(Clone, Copy)]
pub(crate) struct Scope<'a> {
    pub(crate) variables: &'a [Variable],
    pub(crate) blocks: &'a [Block],
    pub(crate) fields: &'a [Field],
    pub(crate) place: Place,
    pub(crate) bound: &'a Names<'a>,
}

fn allows(constant: Constant, place: Place) -> bool
    ensures { result ≡ allows constant place }
{
    match constant {
        Constant::Dest => place.is_send(),
        Constant::From => place.is_on_message(),
        Constant::Round | Constant::Phase => !place.is_start(),
        _ => true,
    }
}

fn is_declared(variables: &[Variable], blocks: &[Block], name: &Identifier) -> bool
    ensures { result ≡ is_declared variables.now blocks.now name.now }
{
    declares(variables, name) || some_field(blocks, name)
}

fn is_readable(scope: &Scope<'_>, name: &Identifier) -> bool
    ensures { result ≡ has_field (readable scope.now.place scope.now.fields.now) name.now }
{
    scope.place.is_on_message() && has_field(scope.fields, name)
}

fn is_field_elsewhere(name: &Identifier, scope: &Scope<'_>) -> bool
    ensures { result ≡ is_field_elsewhere name.now (scope_of scope.now) }
{
    some_field(scope.blocks, name) && !is_readable(scope, name)
}

fn is_state_at_start(name: &Identifier, scope: &Scope<'_>) -> bool
    ensures { result ≡ is_state_at_start name.now (scope_of scope.now) }
{
    scope.place.is_start() && declares_state(scope.variables, name)
}

fn breaks_constant(rule: Rule, constant: Constant, place: Place) -> bool
    ensures { result ≡ breaks_constant rule constant place }
{
    match rule {
        Rule::Fresh | Rule::Known => false,
        Rule::Allowed => !allows(constant, place),
    }
}

fn breaks_name(rule: Rule, name: &Identifier, scope: &Scope<'_>) -> bool
    ensures { result ≡ breaks_name rule name.now (scope_of scope.now) }
{
    match rule {
        Rule::Fresh => false,
        Rule::Known => {
            !(scope.bound.contain(name) || is_declared(scope.variables, scope.blocks, name))
        }
        Rule::Allowed => {
            !scope.bound.contain(name)
                && (is_field_elsewhere(name, scope) || is_state_at_start(name, scope))
        }
    }
}

fn breaks_binder(rule: Rule, name: &Identifier, scope: &Scope<'_>) -> bool
    ensures { result ≡ breaks_binder rule name.now (scope_of scope.now) }
{
    match rule {
        Rule::Fresh => {
            scope.bound.contain(name)
                || has_field(scope.fields, name)
                || declares(scope.variables, name)
        }
        Rule::Known | Rule::Allowed => false,
    }
}

fn breaks_target(rule: Rule, name: &Identifier, variables: &[Variable], blocks: &[Block]) -> bool
    ensures { result ≡ breaks_target rule name.now variables.now blocks.now }
{
    match rule {
        Rule::Fresh => false,
        Rule::Known => !is_declared(variables, blocks, name),
        Rule::Allowed => some_field(blocks, name),
    }
}

/// Whether a constant, name or comprehension variable of an expression breaks the rule.
#[cycle(breaking)]
pub(crate) fn breaks(rule: Rule, expr: &Expr, scope: &Scope<'_>) -> bool
    ensures { result ≡ breaks rule (tree_of expr.now) (scope_of scope.now) }
{
    match expr {
        Expr::Number(_) => false,
        Expr::Fixed(constant) => breaks_constant(rule, *constant, scope.place),
        Expr::Named(name) => breaks_name(rule, name, scope),
        Expr::Unary(_, a) => breaks(rule, a, scope),
        Expr::Binary(_, a, b) => breaks(rule, a, scope) || breaks(rule, b, scope),
        Expr::If(c, a, b) => {
            breaks(rule, c, scope) || breaks(rule, a, scope) || breaks(rule, b, scope)
        }
        Expr::SetOf(name, body) | Expr::RowOf(name, body) => {
            breaks_binder(rule, name, scope) || breaks_within(rule, name, body, scope)
        }
    }
}

#[cycle(breaking)]
fn breaks_within(rule: Rule, name: &Identifier, body: &Expr, scope: &Scope<'_>) -> bool
    ensures { result ≡ breaks rule (tree_of body.now) (within name.now (scope_of scope.now)) }
{
    let bound = Names::Inner(name, scope.bound);
    let inner = Scope {
        bound: &bound,
        ..*scope
    };
    breaks(rule, body, &inner)
}

fn breaks_start(rule: Rule, variable: &Variable, scope: &Scope<'_>) -> bool
    ensures { result ≡ breaks_start rule variable.now.kind (scope_of scope.now) }
{
    match &variable.kind {
        VariableKind::Input => false,
        VariableKind::State { start, .. } => breaks(rule, start.expr(), scope),
    }
}

fn breaks_sent(rule: Rule, sent: &[Formula], scope: &Scope<'_>) -> bool
    ensures { result ≡ list_any (λ (e : Tree). breaks rule e (scope_of scope.now)) sent.now }
{
    sent.iter()
        .any(|formula| breaks(rule, formula.expr(), scope))
}

fn breaks_assignment(rule: Rule, assignment: &Assignment, scope: &Scope<'_>) -> bool
    ensures { result ≡ breaks_assignment rule (scope_of scope.now) assignment.now }
{
    breaks_target(rule, &assignment.target, scope.variables, scope.blocks)
        || breaks(rule, assignment.formula.expr(), scope)
}

fn breaks_assignments(rule: Rule, assignments: &[Assignment], scope: &Scope<'_>) -> bool
    ensures { result ≡ list_any (breaks_assignment rule (scope_of scope.now)) assignments.now }
{
    assignments
        .iter()
        .any(|assignment| breaks_assignment(rule, assignment, scope))
}

fn breaks_block<'a>(rule: Rule, block: &'a Block, scope: &Scope<'a>) -> bool
    ensures { result ≡ breaks_block rule (scope_of scope.now) block.now }
{
    let send = Scope {
        fields: block.fields(),
        place: Place::Send,
        ..*scope
    };
    let on_message = Scope {
        place: Place::OnMessage,
        ..send
    };
    let end = Scope {
        place: Place::End,
        ..send
    };
    breaks(rule, block.condition().expr(), &send)
        || breaks_sent(rule, block.sent(), &send)
        || breaks_assignments(rule, block.on_message(), &on_message)
        || breaks_assignments(rule, block.end(), &end)
}

fn breaks_starts(rule: Rule, scope: &Scope<'_>) -> bool
    ensures { result
        ≡ list_any (λ (v : VariableTree). breaks_start rule v.kind (scope_of scope.now))
        scope.now.variables.now }
{
    scope
        .variables
        .iter()
        .any(|variable| breaks_start(rule, variable, scope))
}

fn breaks_blocks(rule: Rule, scope: &Scope<'_>) -> bool
    ensures { result ≡ list_any (breaks_block rule (scope_of scope.now)) scope.now.blocks.now }
{
    scope
        .blocks
        .iter()
        .any(|block| breaks_block(rule, block, scope))
}

fn breaks_decides(rule: Rule, decides: &[Identifier], scope: &Scope<'_>) -> bool
    ensures { let s = scope_of scope.now in
        result ≡ list_any (λ (x : List ℕ). breaks_target rule x s.variables s.blocks) decides.now }
{
    decides.iter().any(|name| breaks_target(rule, name, scope.variables, scope.blocks))
}

/// Whether something in a program breaks the rule.
pub(crate) fn breaks_program(rule: Rule, program: &Program) -> bool
    ensures { result ≡ breaks_program rule program.now }
{
    let scope = Scope {
        variables: program.variables(),
        blocks: program.blocks(),
        fields: &[],
        place: Place::Start,
        bound: &Names::Outermost,
    };
    breaks_starts(rule, &scope)
        || breaks_blocks(rule, &scope)
        || breaks_decides(rule, program.decides(), &scope)
}

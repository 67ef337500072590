//! The type of each expression.
ghost use Rattle.std.specs.Prelude.{◌≡◌};
ghost use Rattle.round_lang.specs.Tree.{tree_of};
ghost use Rattle.round_check.specs.Types.{same_type, constant_type, kind_type, field_type};
ghost use Rattle.round_check.specs.Types.{variable_type, name_type, wants, alike, both, unary_type};
ghost use Rattle.round_check.specs.Types.{binary_type, type_of, context_of, under, has_type};

use crate::names::Names;
use round_lang::{
    BinaryOperator, Constant, Expr, Field, Identifier, Ty, UnaryOperator, Variable, VariableKind,
};

/// What an expression's names may stand for.
#[derive(Clone, Copy)]
pub(crate) struct Context<'a> {
    pub(crate) variables: &'a [Variable],
    pub(crate) fields: &'a [Field],
    pub(crate) bound: &'a Names<'a>,
}

fn same_type(a: Ty, b: Ty) -> bool
    ensures { result ≡ same_type a b }
{
    match (a, b) {
        (Ty::Num, Ty::Num) => true,
        (Ty::Bool, Ty::Bool) => true,
        (Ty::Set, Ty::Set) => true,
        (Ty::Row, Ty::Row) => true,
        _ => false,
    }
}

fn constant_type(constant: Constant) -> Ty
    ensures { result ≡ constant_type constant }
{
    match constant {
        Constant::True | Constant::False => Ty::Bool,
        Constant::Empty | Constant::All => Ty::Set,
        Constant::Zero => Ty::Row,
        _ => Ty::Num,
    }
}

pub(crate) fn kind_type(kind: &VariableKind) -> Ty
    ensures { result ≡ kind_type kind.now }
{
    match kind {
        VariableKind::Input => Ty::Num,
        VariableKind::State { ty, .. } => *ty,
    }
}

fn field_type(fields: &[Field], name: &Identifier) -> Option<Ty>
    ensures { result ≡ field_type fields.now name.now }
{
    match fields {
        [] => None,
        [first, rest @ ..] => {
            if first.name.is(name) {
                Some(first.ty)
            } else {
                field_type(rest, name)
            }
        }
    }
}

/// The type of the variable with the name, none if there is no such variable.
pub(crate) fn variable_type(variables: &[Variable], name: &Identifier) -> Option<Ty>
    ensures { result ≡ variable_type variables.now name.now }
{
    match variables {
        [] => None,
        [first, rest @ ..] => {
            if first.name.is(name) {
                Some(kind_type(&first.kind))
            } else {
                variable_type(rest, name)
            }
        }
    }
}

fn name_type(context: &Context<'_>, name: &Identifier) -> Option<Ty>
    ensures { result ≡ name_type (context_of context.now) name.now }
{
    if context.bound.contain(name) {
        return Some(Ty::Num);
    }
    match field_type(context.fields, name) {
        Some(ty) => Some(ty),
        None => variable_type(context.variables, name),
    }
}

fn wants(given: Option<Ty>, wanted: Ty, then: Option<Ty>) -> Option<Ty>
    ensures { result ≡ wants given wanted then }
{
    if same_type(given?, wanted) {
        then
    } else {
        None
    }
}

fn alike(a: Option<Ty>, b: Option<Ty>, then: Option<Ty>) -> Option<Ty>
    ensures { result ≡ alike a b then }
{
    wants(b, a?, then)
}

fn both(a: Option<Ty>, left: Ty, b: Option<Ty>, right: Ty, then: Ty) -> Option<Ty>
    ensures { result ≡ both a left b right then }
{
    wants(a, left, wants(b, right, Some(then)))
}

fn unary_type(operator: UnaryOperator, a: Option<Ty>) -> Option<Ty>
    ensures { result ≡ unary_type operator a }
{
    match operator {
        UnaryOperator::Not => wants(a, Ty::Bool, Some(Ty::Bool)),
        UnaryOperator::Single => wants(a, Ty::Num, Some(Ty::Set)),
        UnaryOperator::Size | UnaryOperator::Least => wants(a, Ty::Set, Some(Ty::Num)),
    }
}

fn binary_type(operator: BinaryOperator, a: Option<Ty>, b: Option<Ty>) -> Option<Ty>
    ensures { result ≡ binary_type operator a b }
{
    match operator {
        BinaryOperator::Add | BinaryOperator::Sub | BinaryOperator::Div | BinaryOperator::Mod => {
            both(a, Ty::Num, b, Ty::Num, Ty::Num)
        }
        BinaryOperator::Equal | BinaryOperator::Differs => alike(a, b, Some(Ty::Bool)),
        BinaryOperator::Less
        | BinaryOperator::AtMost
        | BinaryOperator::More
        | BinaryOperator::AtLeast => both(a, Ty::Num, b, Ty::Num, Ty::Bool),
        BinaryOperator::And | BinaryOperator::Or => both(a, Ty::Bool, b, Ty::Bool, Ty::Bool),
        BinaryOperator::Union | BinaryOperator::Inter | BinaryOperator::Minus => {
            both(a, Ty::Set, b, Ty::Set, Ty::Set)
        }
        BinaryOperator::Has => both(a, Ty::Set, b, Ty::Num, Ty::Bool),
        BinaryOperator::Entry => both(a, Ty::Row, b, Ty::Num, Ty::Num),
    }
}

/// The type of an expression, none if a name is unknown or a part has another type than its
/// operator wants.
#[cycle(typing)]
pub(crate) fn type_of(expr: &Expr, context: &Context<'_>) -> Option<Ty>
    ensures { result ≡ type_of (tree_of expr.now) (context_of context.now) }
{
    match expr {
        Expr::Number(_) => Some(Ty::Num),
        Expr::Fixed(constant) => Some(constant_type(*constant)),
        Expr::Named(name) => name_type(context, name),
        Expr::Unary(operator, a) => unary_type(*operator, type_of(a, context)),
        Expr::Binary(operator, a, b) => {
            binary_type(*operator, type_of(a, context), type_of(b, context))
        }
        Expr::If(c, a, b) => {
            let first = type_of(a, context);
            let branches = alike(first, type_of(b, context), first);
            wants(type_of(c, context), Ty::Bool, branches)
        }
        Expr::SetOf(name, body) => {
            wants(type_under(name, body, context), Ty::Bool, Some(Ty::Set))
        }
        Expr::RowOf(name, body) => {
            wants(type_under(name, body, context), Ty::Num, Some(Ty::Row))
        }
    }
}

#[cycle(typing)]
fn type_under(name: &Identifier, body: &Expr, context: &Context<'_>) -> Option<Ty>
    ensures { result ≡ type_of (tree_of body.now) (under name.now (context_of context.now)) }
{
    let bound = Names::Inner(name, context.bound);
    let inner = Context {
        bound: &bound,
        ..*context
    };
    type_of(body, &inner)
}

/// Whether a type was found and is the one that is wanted.
pub(crate) fn has_type(found: Option<Ty>, wanted: Ty) -> bool
    ensures { result ≡ has_type found wanted }
{
    match found {
        Some(ty) => same_type(ty, wanted),
        None => false,
    }
}

//! The first expression of a wrong type.

use crate::earliest::Earliest;
use crate::fault::FaultPlace;
use crate::layout::{NameAt, name_at};
use crate::operands::{branches, comprehension, operand, operands};
use crate::parts::{span_of, unwrapped};
use crate::scope::{Bound, Fields, Placed, Position, variable_type};
use crate::sites::Site;
use crate::spelling::{binary_text, unary_text};
use crate::wants::Wants;
use round_lang::{BinaryOperator, Constant, Expr, Identifier, Token, Ty, UnaryOperator};

/// What names stand for in an expression.
#[derive(Clone, Copy)]
struct Context<'p, 't, 'a> {
    placed: &'p Placed<'p, 't, 'a>,
    /// The fields that can be read.
    fields: Option<Fields<'p, 'a>>,
    bound: &'p Bound<'p, 'a>,
}

/// An expression's type, none if it has none, the tokens that it is, and where it's declared, if
/// it's a name.
#[derive(Clone, Copy)]
struct Typed<'t, 'a> {
    ty: Option<Ty>,
    part: &'t [Token<'a>],
    declared: Option<NameAt<'a>>,
}

fn constant_type(constant: Constant) -> Ty {
    match constant {
        Constant::True | Constant::False => Ty::Bool,
        Constant::Empty | Constant::All => Ty::Set,
        Constant::Zero => Ty::Row,
        _ => Ty::Num,
    }
}

/// The type that an operator on one value wants, and that which it gives.
fn unary_types(operator: UnaryOperator) -> (Ty, Ty) {
    match operator {
        UnaryOperator::Not => (Ty::Bool, Ty::Bool),
        UnaryOperator::Single => (Ty::Num, Ty::Set),
        UnaryOperator::Size | UnaryOperator::Least => (Ty::Set, Ty::Num),
    }
}

/// The types that an operator on two values wants, and that which it gives; those of `=` and `<>`
/// are any one type.
fn binary_types(operator: BinaryOperator) -> (Ty, Ty, Ty) {
    match operator {
        BinaryOperator::Add | BinaryOperator::Sub | BinaryOperator::Div | BinaryOperator::Mod => {
            (Ty::Num, Ty::Num, Ty::Num)
        }
        BinaryOperator::Union | BinaryOperator::Inter | BinaryOperator::Minus => {
            (Ty::Set, Ty::Set, Ty::Set)
        }
        BinaryOperator::And | BinaryOperator::Or => (Ty::Bool, Ty::Bool, Ty::Bool),
        BinaryOperator::Has => (Ty::Set, Ty::Num, Ty::Bool),
        BinaryOperator::Entry => (Ty::Row, Ty::Num, Ty::Num),
        _ => (Ty::Num, Ty::Num, Ty::Bool),
    }
}

impl<'a> Context<'_, '_, 'a> {
    fn name_type(&self, name: &Identifier) -> Option<Ty> {
        if self.bound.place(name).is_some() {
            return Some(Ty::Num);
        }
        if let Some(ty) = self.field_type(name) {
            return Some(ty);
        }
        Some(variable_type(self.placed.variable(name)?))
    }

    fn field_type(&self, name: &Identifier) -> Option<Ty> {
        self.fields?.type_of(name)
    }

    fn field_place(&self, name: &Identifier) -> Option<NameAt<'a>> {
        self.fields?.place(name)
    }

    /// Where the name that an expression is is declared or bound; `None` if it's no name.
    fn declared(&self, expr: &Expr) -> Option<NameAt<'a>> {
        let Expr::Named(name) = expr else {
            return None;
        };
        if let Some(place) = self.bound.place(name) {
            return Some(place);
        }
        if let Some(place) = self.field_place(name) {
            return Some(place);
        }
        self.placed.variable_place(name)
    }
}

impl<'a> Earliest<'a> {
    /// Whether an expression has the wanted type; notes it, if it has another.
    fn wants(&mut self, typed: Typed<'_, 'a>, wanted: Ty, wants: Wants<'a>) -> bool {
        let Some(found) = typed.ty else {
            return false;
        };
        if found == wanted {
            return true;
        }
        if let Some(part) = span_of(typed.part) {
            self.note(
                part.first,
                FaultPlace::WrongType {
                    part,
                    declared: typed.declared,
                    wanted,
                    found,
                    wants,
                },
            );
        }
        false
    }

    /// Whether two expressions have one type.
    fn alike(&mut self, a: Typed<'_, 'a>, b: Typed<'_, 'a>, wants: Wants<'a>) -> bool {
        match a.ty {
            Some(wanted) => self.wants(b, wanted, wants),
            None => false,
        }
    }

    fn binary(
        &mut self,
        operator: BinaryOperator,
        a: Typed<'_, 'a>,
        b: Typed<'_, 'a>,
    ) -> Option<Ty> {
        let word = binary_text(operator);
        if matches!(operator, BinaryOperator::Equal | BinaryOperator::Differs) {
            let is_alike = self.alike(a, b, Wants::OtherSide(word));
            return is_alike.then_some(Ty::Bool);
        }
        let (left, right, result) = binary_types(operator);
        let is_left = self.wants(a, left, Wants::Operator(word));
        let is_right = self.wants(b, right, Wants::Operator(word));
        (is_left && is_right).then_some(result)
    }

    /// The type of an expression; if it has none, the fault is noted.
    #[cycle(typing)]
    fn type_of(
        &mut self,
        expr: &Expr,
        part: &[Token<'a>],
        context: &Context<'_, '_, 'a>,
    ) -> Option<Ty> {
        let part = unwrapped(part);
        match expr {
            Expr::Number(_) => Some(Ty::Num),
            Expr::Fixed(constant) => Some(constant_type(*constant)),
            Expr::Named(name) => context.name_type(name),
            Expr::Unary(operator, a) => {
                let part = operand(*operator, part);
                let typed = Typed {
                    ty: self.type_of(a, part, context),
                    part,
                    declared: context.declared(a),
                };
                let (wanted, result) = unary_types(*operator);
                let wants = Wants::Operator(unary_text(*operator));
                self.wants(typed, wanted, wants).then_some(result)
            }
            Expr::Binary(operator, a, b) => {
                let (left, right) = operands(*operator, part);
                let first = Typed {
                    ty: self.type_of(a, left, context),
                    part: left,
                    declared: context.declared(a),
                };
                let second = Typed {
                    ty: self.type_of(b, right, context),
                    part: right,
                    declared: context.declared(b),
                };
                self.binary(*operator, first, second)
            }
            Expr::If(c, a, b) => {
                let [condition, first, second] = branches(part);
                let condition = Typed {
                    ty: self.type_of(c, condition, context),
                    part: condition,
                    declared: context.declared(c),
                };
                let first = Typed {
                    ty: self.type_of(a, first, context),
                    part: first,
                    declared: context.declared(a),
                };
                let second = Typed {
                    ty: self.type_of(b, second, context),
                    part: second,
                    declared: context.declared(b),
                };
                let is_condition = self.wants(condition, Ty::Bool, Wants::Condition);
                let is_alike = self.alike(first, second, Wants::OtherBranch);
                if is_condition && is_alike {
                    first.ty
                } else {
                    None
                }
            }
            Expr::SetOf(name, body) => {
                let typed = self.type_under(name, body, part, context);
                self.wants(typed, Ty::Bool, Wants::SetOf).then_some(Ty::Set)
            }
            Expr::RowOf(name, body) => {
                let typed = self.type_under(name, body, part, context);
                self.wants(typed, Ty::Num, Wants::RowOf).then_some(Ty::Row)
            }
        }
    }

    /// The type of the body of a comprehension.
    #[cycle(typing)]
    fn type_under<'t>(
        &mut self,
        name: &Identifier,
        body: &Expr,
        part: &'t [Token<'a>],
        context: &Context<'_, '_, 'a>,
    ) -> Typed<'t, 'a> {
        let (variable, part) = comprehension(part);
        let Some(place) = variable.first().and_then(name_at) else {
            return Typed {
                ty: None,
                part,
                declared: None,
            };
        };
        let bound = Bound::Inner(name, place, context.bound);
        let inner = Context {
            bound: &bound,
            ..*context
        };
        let ty = self.type_of(body, part, &inner);
        let declared = inner.declared(body);
        Typed { ty, part, declared }
    }

    /// Notes the variable that `decide` names, if it isn't a set.
    pub(crate) fn note_decide(
        &mut self,
        placed: &Placed<'_, '_, 'a>,
        name: &Identifier,
        place: NameAt<'a>,
    ) {
        let Some(variable) = placed.variable(name) else {
            return;
        };
        let found = variable_type(variable);
        if found != Ty::Set {
            self.note(
                place.span.first,
                FaultPlace::WrongType {
                    part: place.span,
                    declared: placed.variable_place(name),
                    wanted: Ty::Set,
                    found,
                    wants: Wants::Decide,
                },
            );
        }
    }

    /// Notes what has a wrong type in an expression of the program.
    pub(crate) fn note_types<'p, 't>(
        &mut self,
        placed: &'p Placed<'p, 't, 'a>,
        site: &Site<'p, 't, 'a>,
    ) {
        let is_read = site.position == Position::OnMessage;
        let context = Context {
            placed,
            fields: if is_read { site.fields } else { None },
            bound: &Bound::Outermost,
        };
        let ty = self.type_of(site.expr, site.part, &context);
        if let Some((wanted, wants)) = site.wanted {
            let typed = Typed {
                ty,
                part: site.part,
                declared: context.declared(site.expr),
            };
            let _is_wanted = self.wants(typed, wanted, wants);
        }
    }
}

//! The first name or word that breaks a rule on names.

use crate::earliest::Earliest;
use crate::fault::{Double, FaultPlace};
use crate::layout::{NameAt, name_at};
use crate::operands::{branches, comprehension, operand, operands};
use crate::parts::unwrapped;
use crate::scope::{Bound, Fields, Placed, Position, is_input};
use crate::sites::{Site, Target};
use round_lang::{Constant, Expr, Identifier, Span, Token};

/// A rule on names.
#[derive(Clone, Copy, PartialEq, Eq, Debug)]
pub(crate) enum Rule {
    /// A comprehension variable's name is not in use.
    Fresh,
    /// A name stands for something.
    Known,
    /// A name or constant may be used where it stands.
    Allowed,
}

/// Why a word or a name may not stand where it does.
#[derive(Clone, Copy, PartialEq, Eq, Debug)]
pub enum NotAllowed<'a> {
    /// `dest` outside of `send`.
    Dest,
    /// `from` outside of `on message`.
    From,
    /// `round` in a first value.
    Round,
    /// `phase` in a first value.
    Phase,
    /// A state variable, declared there, in a first value.
    StateAtStart(NameAt<'a>),
    /// A field, declared there, outside of its block's `on message`.
    Field(NameAt<'a>),
    /// A field, declared there, that is set or decided.
    SetField(NameAt<'a>),
}

impl<'a> NotAllowed<'a> {
    /// The name that may not stand there, with its declaration; `None` if it's a word.
    pub(crate) fn name(&self) -> Option<NameAt<'a>> {
        match self {
            NotAllowed::StateAtStart(name) => Some(*name),
            NotAllowed::Field(name) => Some(*name),
            NotAllowed::SetField(name) => Some(*name),
            _ => None,
        }
    }
}

/// Where a rule is looked at.
#[derive(Clone, Copy)]
struct View<'p, 't, 'a> {
    rule: Rule,
    placed: &'p Placed<'p, 't, 'a>,
    fields: Option<Fields<'p, 'a>>,
    position: Position,
    bound: &'p Bound<'p, 'a>,
}

/// Why a constant may not stand there, if it may not.
pub(crate) fn constant_fault<'a>(constant: Constant, position: Position) -> Option<NotAllowed<'a>> {
    match constant {
        Constant::Dest if position != Position::Send => Some(NotAllowed::Dest),
        Constant::From if position != Position::OnMessage => Some(NotAllowed::From),
        Constant::Round if position == Position::Start => Some(NotAllowed::Round),
        Constant::Phase if position == Position::Start => Some(NotAllowed::Phase),
        _ => None,
    }
}

impl<'a> View<'_, '_, 'a> {
    /// Why a name may not stand there, if it may not.
    fn name_fault(&self, name: &Identifier) -> Option<NotAllowed<'a>> {
        if self.bound.place(name).is_some() {
            return None;
        }
        let is_read = self.position == Position::OnMessage;
        let is_readable = is_read && self.own_field(name).is_some();
        if !is_readable {
            if let Some(field) = self.placed.field_place(name) {
                return Some(NotAllowed::Field(field));
            }
        }
        let variable = self.placed.variable(name)?;
        if self.position == Position::Start && !is_input(variable) {
            return Some(NotAllowed::StateAtStart(self.placed.variable_place(name)?));
        }
        None
    }

    /// What has the name of a comprehension variable already.
    fn taken(&self, name: &Identifier) -> Option<NameAt<'a>> {
        if let Some(place) = self.bound.place(name) {
            return Some(place);
        }
        match self.own_field(name) {
            Some(place) => Some(place),
            None => self.placed.variable_place(name),
        }
    }

    /// Where the field with the name is declared in the same block.
    fn own_field(&self, name: &Identifier) -> Option<NameAt<'a>> {
        self.fields?.place(name)
    }

    fn is_known(&self, name: &Identifier) -> bool {
        self.bound.place(name).is_some() || is_declared(self.placed, name)
    }
}

/// Whether a variable or a field of some block has the name.
fn is_declared(placed: &Placed<'_, '_, '_>, name: &Identifier) -> bool {
    placed.variable(name).is_some() || placed.field_place(name).is_some()
}

impl<'a> Earliest<'a> {
    fn note_unknown(&mut self, name: NameAt<'a>) {
        self.note(name.span.first, FaultPlace::unknown(name, None));
    }

    fn note_not_allowed(&mut self, word: Span, why: NotAllowed<'a>) {
        self.note(word.first, FaultPlace::NotAllowedHere { word, why });
    }

    /// Notes a name that is set or decided, if it breaks the rule.
    pub(crate) fn note_target(
        &mut self,
        rule: Rule,
        placed: &Placed<'_, '_, 'a>,
        target: &Target<'_, 'a>,
    ) {
        match rule {
            Rule::Fresh => {}
            Rule::Known => {
                if !is_declared(placed, target.name) {
                    self.note_unknown(target.place);
                }
            }
            Rule::Allowed => {
                if let Some(field) = placed.field_place(target.name) {
                    self.note_not_allowed(target.place.span, NotAllowed::SetField(field));
                }
            }
        }
    }

    fn note_constant(&mut self, constant: Constant, part: &[Token<'a>], view: &View<'_, '_, 'a>) {
        if view.rule != Rule::Allowed {
            return;
        }
        if let (Some(token), Some(why)) = (part.first(), constant_fault(constant, view.position)) {
            self.note_not_allowed(token.span, why);
        }
    }

    fn note_name(&mut self, name: &Identifier, part: &[Token<'a>], view: &View<'_, '_, 'a>) {
        let Some(place) = part.first().and_then(name_at) else {
            return;
        };
        match view.rule {
            Rule::Fresh => {}
            Rule::Known => {
                if !view.is_known(name) {
                    self.note_unknown(place);
                }
            }
            Rule::Allowed => {
                if let Some(why) = view.name_fault(name) {
                    self.note_not_allowed(place.span, why);
                }
            }
        }
    }

    fn note_bound(&mut self, name: &Identifier, place: NameAt<'a>, view: &View<'_, '_, 'a>) {
        if view.rule != Rule::Fresh {
            return;
        }
        if let Some(other) = view.taken(name) {
            self.note(
                place.span.first,
                FaultPlace::DoubleName {
                    name: place,
                    other,
                    double: Double::Bound,
                },
            );
        }
    }

    /// Notes the constants, names and comprehension variables that break the rule.
    #[cycle(noting)]
    fn note_expr(&mut self, expr: &Expr, part: &[Token<'a>], view: &View<'_, '_, 'a>) {
        let part = unwrapped(part);
        match expr {
            Expr::Number(_) => {}
            Expr::Fixed(constant) => self.note_constant(*constant, part, view),
            Expr::Named(name) => self.note_name(name, part, view),
            Expr::Unary(operator, a) => self.note_expr(a, operand(*operator, part), view),
            Expr::Binary(operator, a, b) => {
                let (left, right) = operands(*operator, part);
                self.note_expr(a, left, view);
                self.note_expr(b, right, view);
            }
            Expr::If(c, a, b) => {
                let [condition, first, second] = branches(part);
                self.note_expr(c, condition, view);
                self.note_expr(a, first, view);
                self.note_expr(b, second, view);
            }
            Expr::SetOf(name, body) => self.note_under(name, body, part, view),
            Expr::RowOf(name, body) => self.note_under(name, body, part, view),
        }
    }

    #[cycle(noting)]
    fn note_under(
        &mut self,
        name: &Identifier,
        body: &Expr,
        part: &[Token<'a>],
        view: &View<'_, '_, 'a>,
    ) {
        let (variable, part) = comprehension(part);
        let Some(place) = variable.first().and_then(name_at) else {
            return;
        };
        self.note_bound(name, place, view);
        let bound = Bound::Inner(name, place, view.bound);
        let inner = View {
            bound: &bound,
            ..*view
        };
        self.note_expr(body, part, &inner);
    }

    /// Notes what breaks the rule in an expression of the program.
    pub(crate) fn note_names<'p, 't>(
        &mut self,
        rule: Rule,
        placed: &'p Placed<'p, 't, 'a>,
        site: &Site<'p, 't, 'a>,
    ) {
        let view = View {
            rule,
            placed,
            fields: site.fields,
            position: site.position,
            bound: &Bound::Outermost,
        };
        self.note_expr(site.expr, site.part, &view);
    }
}

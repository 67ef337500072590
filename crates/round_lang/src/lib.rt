//! The round language: its syntax tree, and the values that its programs compute with.
#![tactic(auto)]

mod block;
mod builder;
mod building;
mod copies;
mod equal;
mod expr;
mod fault;
mod formula;
mod identifier;
mod keywords;
mod kind;
mod laws;
mod layout;
mod lexing;
mod limits;
mod name;
mod parsing;
mod program;
mod row;
mod sets;
mod shape;
mod token;
mod value;
mod vars;
mod words;

pub use block::{Assignment, Block, Field};
pub use builder::VarsBuilder;
pub use expr::{BinaryOperator, Constant, Expr, Ty, UnaryOperator};
pub use fault::{LangFault, Span};
pub use formula::Formula;
pub use identifier::Identifier;
pub use kind::Kind;
pub use laws::{a_text_is_one_formula, a_text_is_one_program};
pub use lexing::{TokenFault, tokens};
pub use limits::MAX_TEXT;
pub use name::Name;
pub use parsing::{parse, parse_formula};
pub use program::{Program, Variable, VariableKind};
pub use row::Row;
pub use run_events::NoMemory;
pub use sets::ValueSet;
pub use shape::Shape;
pub use token::{Mark, Token, Word};
pub use value::{Value, binary, unary};
pub use vars::{Message, Vars};

//! Mistakes that are often made at first.

use std::fmt;

/// A mistake that is often made at first.
#[derive(Clone, Copy, PartialEq, Eq, Debug)]
pub enum Mistake {
    /// `*`.
    Product,
    /// `/`.
    Quotient,
    /// `%`.
    Remainder,
    /// `!=`.
    Different,
    /// Another `!`.
    Negation,
    /// `&`.
    Ampersand,
    /// `|`.
    Bar,
    /// `|` in the place of the `:` of a set.
    SuchThat,
    /// `//`, `/*` or `--`.
    Comment,
    /// Another character that begins no word.
    Character,
    /// `==`.
    DoubleEqual,
    /// `=` in the place of `:=`.
    EqualForAssign,
    /// `:=` in the place of `=`.
    AssignForEqual,
    /// An operator in the place of `:=`, as in `a += 1`.
    OperatorForAssign,
    /// `:` in the place of `:=`, as behind an `End` with a capital letter.
    ColonForAssign,
    /// An `if` that assigns.
    IfAssigns,
    /// An assignment to an entry of a row.
    EntryAssigned,
    /// A call of what is no operator.
    Called,
    /// An operator that is called without brackets.
    CalledWithoutBrackets,
    /// `e in s`.
    In,
    /// `{e}`.
    SetOfOne,
    /// `{a, b}`.
    SetOfSeveral,
    /// `{}`.
    SetOfNone,
    /// `[a, b]`.
    RowOfEntries,
    /// `-` with nothing before it.
    Negative,
    /// `a < b < c`.
    SecondComparison,
    /// An `if` or a `not` as an operand, without brackets.
    Bare,
    /// An `if` without `else`.
    NoElse,
    /// `elif`.
    ElseIf,
    /// A word of the language as a name.
    WordAsName,
    /// `values 0 to 3` and the like.
    RangeOfValues,
    /// What is no type in the place of one.
    NoType,
    /// A variable without a first value.
    NoFirstValue,
    /// A field without a type.
    FieldWithoutType,
    /// What is sent, without brackets.
    SentWithoutBrackets,
    /// An expression behind `decide`.
    ExpressionDecided,
    /// An assignment without `;`.
    NoSemicolon,
    /// `;` behind what is no assignment.
    Semicolon,
    /// A block without `end:`.
    NoEnd,
    /// A block that begins with `round`.
    RoundForAt,
    /// `input`, `state` or `decide` behind a block.
    LateDeclaration,
    /// A name in the place of this word, which is spelt nearly as that.
    Misspelt(&'static str),
}

impl Mistake {
    /// Whether something is missing between two tokens.
    pub(crate) fn is_gap(self) -> bool {
        matches!(self, Mistake::NoSemicolon | Mistake::NoFirstValue)
    }

    /// What to write in the place of a character or a sign.
    fn sign_text(self) -> Option<&'static str> {
        let text = match self {
            Mistake::Product => "there is no product; for 2 * a write a + a",
            Mistake::Quotient => "a quotient is written \"div\", as in n div 2",
            Mistake::Remainder => "a remainder is written \"mod\", as in round mod 2",
            Mistake::Different => "\"different\" is written <>, as in a <> 1",
            Mistake::Negation => "\"not\" is written as a word",
            Mistake::Ampersand => "\"and\" is written as a word",
            Mistake::Bar => "\"or\" is written as a word",
            Mistake::SuchThat => "a set is written {v : CONDITION}",
            Mistake::Comment => "a comment begins with #",
            Mistake::Character => "no word of the language begins with this character",
            Mistake::DoubleEqual => "a comparison has one =, as in a = 1",
            Mistake::EqualForAssign => "an assignment is written with :=, as in a := m;",
            Mistake::AssignForEqual => "a first value is written with =: state a: num = 0",
            Mistake::OperatorForAssign => "the new value is written as a whole: a := a + 1;",
            Mistake::ColonForAssign => {
                "an assignment is written with :=, and a block's last part is \"end:\""
            }
            Mistake::Negative => "there are no numbers below 0; a - b stops at 0",
            _ => return None,
        };
        Some(text)
    }

    /// What to write in the place of an expression.
    fn expression_text(self) -> Option<&'static str> {
        let text = match self {
            Mistake::Called => "only single, size, least and has are called",
            Mistake::CalledWithoutBrackets => {
                "operands stand in ( and ): size(s), least(s), single(e), has(s, e)"
            }
            Mistake::In => "\"is e in s\" is written has(s, e)",
            Mistake::SetOfOne => {
                "a set is written {v : CONDITION}, that of one value is single(e)"
            }
            Mistake::SetOfSeveral => "a set of two values is written single(a) union single(b)",
            Mistake::SetOfNone => "the set of nothing is written empty",
            Mistake::RowOfEntries => "a row is written [v : NUMBER], that of zeros is zero",
            Mistake::SecondComparison => {
                "a comparison has two sides: for a < b < c write a < b and b < c"
            }
            Mistake::Bare => "an \"if\" or a \"not\" stands in ( and ) as an operand",
            Mistake::NoElse => "an \"if\" has both branches: if c then a else b",
            Mistake::ElseIf => "\"elif\" is written else if",
            _ => return None,
        };
        Some(text)
    }

    /// What to write in the place of a declaration, a part of a block or an assignment.
    fn part_text(self) -> &'static str {
        match self {
            Mistake::IfAssigns => {
                "an assignment begins with a name: a := if m > a then m else a;"
            }
            Mistake::EntryAssigned => {
                "a row is assigned as a whole: r := [v : if v = m then 1 else r[v]];"
            }
            Mistake::WordAsName => "this is a word of the language, and can't be a name",
            Mistake::RangeOfValues => "\"values 4\" are the values 0 to 3",
            Mistake::NoType => "a type is num, bool, set or row",
            Mistake::NoFirstValue => "a variable has a first value: state a: num = 0",
            Mistake::FieldWithoutType => "a field has a type: message (s: set)",
            Mistake::SentWithoutBrackets => {
                "the values that are sent stand in ( and ): send when c: (a)"
            }
            Mistake::ExpressionDecided => {
                "\"decide\" names a set, and the decision is its least member"
            }
            Mistake::Semicolon => "only assignments end with a semicolon",
            Mistake::NoEnd => "each block has the part \"end:\", which may be empty",
            Mistake::RoundForAt => "a block begins with \"at\", as in at 1:",
            Mistake::LateDeclaration => {
                "\"input\", \"state\" and \"decide\" stand before \"at 1:\""
            }
            _ => "an assignment ends with a semicolon",
        }
    }
}

/// What is wrong, and what to write.
impl fmt::Display for Mistake {
    fn fmt<W: fmt::Write>(&self, f: &mut fmt::Formatter<W>) -> fmt::Result {
        if let Mistake::Misspelt(word) = self {
            return write!(f, "is it \"{word}\"?");
        }
        let text = match self.sign_text().or(self.expression_text()) {
            Some(text) => text,
            None => self.part_text(),
        };
        write!(f, "{text}")
    }
}

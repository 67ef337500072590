//! Values as words, act by act.
use crate::acts::Answers;
use crate::reading::{value, vars};
use crate::showing::{show_value, show_vars, show_yes};
use round_lang::{Kind, Shape, Ty, Value, Vars};
use std::alloc::Global;
use test_kit::{Fault, cut, number};

/// How many entries a row has in the shapes of lists.
const ENTRIES: u32 = 3;

/// A list of values, a copy of it, and the shape that it was given.
#[derive(Drop)]
pub struct List {
    shape: Shape,
    vars: Vars,
    copy: Vars,
}

/// The kind of a value's type.
fn kind(value: &Value) -> Kind {
    let ty = match value {
        Value::Num(_) => Ty::Num,
        Value::Flag(_) => Ty::Bool,
        Value::Set(_) => Ty::Set,
        Value::Row(_) => Ty::Row,
    };
    Kind::of(ty, ENTRIES)
}

/// The shape of values with commas between them.
fn shape(alloc: Global, text: &str) -> Result<Shape, Fault> {
    let mut kinds = Vec::new(alloc);
    for part in text.split(',') {
        kinds.push(kind(&value(alloc, part)?))?;
    }
    Ok(Shape::new(alloc, kinds.as_slice())?)
}

/// The entry of a row, of `2 0` the first one of value 2.
fn show_entry(vars: &Vars, text: &str, out: &mut String) -> Result<(), Fault> {
    let (place, entry) = cut(text);
    let entry = vars.entry(number(place)? as usize, number(entry)?);
    write!(out, "{entry}")?;
    Ok(())
}

/// What is read at a place.
fn show_read(vars: &Vars, kind: &str, text: &str, out: &mut String) -> Result<(), Fault> {
    let place = number(text)? as usize;
    match kind {
        "num" => write!(out, "{}", vars.num(place))?,
        "flag" => write!(out, "{}", vars.flag(place))?,
        "set" => write!(out, "{}", vars.set(place).bits)?,
        "value" => show_value(out, &vars.value(place)?)?,
        _ => return Err(Fault::Unreadable),
    }
    Ok(())
}

impl List {
    /// No values.
    pub fn new(alloc: Global) -> List {
        List {
            shape: Shape::empty(),
            vars: Vars::new(alloc),
            copy: Vars::new(alloc),
        }
    }

    /// Begins with these values, and a copy of them.
    fn begin(&mut self, alloc: Global, text: &str) -> Result<(), Fault> {
        self.shape = shape(alloc, text)?;
        self.vars = vars(alloc, text, &self.shape)?;
        self.make_copy(alloc)
    }

    fn make_copy(&mut self, alloc: Global) -> Result<(), Fault> {
        self.copy = self.vars.copy(alloc)?;
        Ok(())
    }

    /// Puts a value at a place, as `1 num 3`.
    fn put(&mut self, alloc: Global, text: &str) -> Result<(), Fault> {
        let (place, text) = cut(text);
        let place = number(place)? as usize;
        self.vars.put(place, &value(alloc, text)?)?;
        Ok(())
    }
}

impl Answers for List {
    fn answer(&mut self, alloc: Global, act: &str, out: &mut String) -> Result<(), Fault> {
        let (word, rest) = cut(act);
        match word {
            "begin" => {
                self.begin(alloc, rest)?;
                Ok(out.push_str("begun")?)
            }
            "put" => {
                self.put(alloc, rest)?;
                Ok(out.push_str("put")?)
            }
            "make-copy" => {
                self.make_copy(alloc)?;
                Ok(out.push_str("made")?)
            }
            "copy" => show_vars(out, &self.copy),
            "is-copy" => Ok(show_yes(out, self.vars.same(&self.copy))?),
            "owners" => Ok(write!(out, "{}", self.shape.owners())?),
            "is-empty" => Ok(show_yes(out, self.vars.is_empty())?),
            "len" => Ok(write!(out, "{}", self.vars.len())?),
            "entry" => show_entry(&self.vars, rest, out),
            _ => show_read(&self.vars, word, rest, out),
        }
    }
}

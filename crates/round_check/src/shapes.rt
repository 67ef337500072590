//! The shapes of a program's states and messages.
ghost use Rattle.std.specs.Prelude.{◌≡◌, IfOk};
ghost use Rattle.round_check.specs.Shapes.{block_kinds, message_kinds, state_kinds};
ghost use Rattle.round_check.specs.Spelling.{packed, spelled};

use crate::packing::pack;
use crate::spelling::spell;
use crate::types::kind_type;
use round_lang::{Block, Kind, Program, Shape};
use run_events::NoMemory;
use std::alloc::Global;

/// A program with the shape of its states, of each block's messages, and its spelling.
#[derive(Drop)]
pub(crate) struct ShapedProgram {
    pub(crate) program: Program,
    pub(crate) state: Shape,
    pub(crate) messages: Vec<Shape>,
    /// As bytes, of which many are compared at once.
    pub(crate) spelling: Vec<u8>,
    ghost state_is: { state ≡ state_kinds program },
    ghost messages_are: { messages.items ≡ message_kinds program },
    ghost spelling_is: { spelling.items ≡ packed (spelled program) },
}

impl ShapedProgram {
    pub(crate) fn new(alloc: Global, program: Program) -> Result<ShapedProgram, NoMemory>
        ensures { IfOk result (λ shaped. shaped.program ≡ program) }
    {
        let state = state_shape(alloc, &program)?;
        let messages = message_shapes(alloc, &program)?;
        let spelling = pack(alloc, &spell(alloc, &program)?)?;
        Ok(ShapedProgram {
            program,
            state,
            messages,
            spelling,
        })
    }
}

fn state_shape(alloc: Global, program: &Program) -> Result<Shape, NoMemory>
    ensures { IfOk result (λ shape. shape ≡ state_kinds program.now) }
{
    let values = program.values();
    let mut kinds = Vec::with_capacity(alloc, program.variables().len())?;
    for variable in program.variables() {
        kinds.push(Kind::of(kind_type(&variable.kind), values))?;
    }
    Shape::new(alloc, &kinds)
}

fn message_shapes(alloc: Global, program: &Program) -> Result<Vec<Shape>, NoMemory>
    ensures { IfOk result (λ shapes. shapes.items ≡ message_kinds program.now) }
{
    let values = program.values();
    let mut shapes = Vec::with_capacity(alloc, program.blocks().len())?;
    for block in program.blocks() {
        shapes.push(message_shape(alloc, values, block)?)?;
    }
    Ok(shapes)
}

fn message_shape(alloc: Global, values: u32, block: &Block) -> Result<Shape, NoMemory>
    ensures { IfOk result (λ shape. shape ≡ block_kinds values block.now) }
{
    let mut kinds = Vec::with_capacity(alloc, block.fields().len())?;
    for field in block.fields() {
        kinds.push(Kind::of(field.ty, values))?;
    }
    Shape::new(alloc, &kinds)
}

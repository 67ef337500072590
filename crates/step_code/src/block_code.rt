//! The code of a block.
ghost use Rattle.std.specs.Prelude.{◌≡◌, ◌<◌, ◌≤◌, ◌+◌, ◌*◌, ◌^◌, ◌++◌, IfOk, OnOk, length, map};
ghost use Rattle.round_lang.specs.Limits.{max_fields};
ghost use Rattle.step_code.specs.Assignments.{body_code, body_top, values_code, values_top};
ghost use Rattle.step_code.specs.Assignments.{BodyNumbers, ValuesNumbers};
ghost use Rattle.step_code.specs.Code.{code_of, place_of, top_of, HasSmallNumbers};
ghost use Rattle.step_code.specs.Compiled.{block_view, BlockNumbers, BlocksNumbers};
ghost use Rattle.step_code.specs.Compiled.{SendsFields};
ghost use Rattle.step_code.specs.Joined.{joined_code};
ghost use Rattle.step_code.specs.Layout.{block_code, block_top, blocks_top, free_place};
ghost use Rattle.step_code.specs.Layout.{message_names, message_place, state_names, state_place};

use crate::emit::emit;
use crate::instr::Instr;
use crate::joining::join_jumps;
use crate::layout::{place_fields, place_variables};
use crate::names::{Known, Scope};
use crate::pieces::{Piece, emit_body, emit_values};
use crate::single::further;
use round_lang::{Assignment, Block, Formula, Program};
use run_events::NoMemory;
use std::alloc::Global;

/// The code of a block, where the value of its condition stands, and where the free words begin.
#[derive(Drop)]
pub(crate) struct BlockCode {
    pub(crate) free: u16,
    pub(crate) condition: Vec<Instr>,
    pub(crate) place: u16,
    pub(crate) sent: Vec<Instr>,
    pub(crate) on_message: Vec<Instr>,
    pub(crate) end: Vec<Instr>,
}

/// The names that can be read in `on message`, and where the free words begin.
#[derive(Drop)]
struct Readable {
    names: Vec<Known>,
    free: u16,
}

fn names_in(
    alloc: Global,
    program: &Program,
    message: u16,
    block: &Block,
) -> Result<Readable, NoMemory>
    requires message { message ≡ message_place program.now }
    requires low { message < 2 ^ 11 }
    ensures names { IfOk result (λ r. r.names.items ≡ message_names program.now block.now) }
    ensures free { IfOk result (λ r. r.free ≡ free_place program.now block.now) }
    ensures near { IfOk result (λ r. r.free < 2 ^ 12) }
    ensures few { OnOk result (length block.now.fields ≤ max_fields) }
{
    let k = program.values();
    let mut names = Vec::new(alloc);
    let free = place_fields(&mut names, k, message, block.fields())?;
    let state = further(13, k);
    place_variables(&mut names, k, state, program.variables())?;
    Ok(Readable { names, free })
}

fn body_piece(
    alloc: Global,
    k: u32,
    names: &[Known],
    variables: &[Known],
    body: &[Assignment],
    d: u16,
) -> Result<Piece, NoMemory>
    requires few { k ≤ 64 }
    requires near { d < 2 ^ 12 }
    ensures code { IfOk result (λ r. r.code.items
        ≡ joined_code (body_code k names.now variables.now body.now d)) }
    ensures top { IfOk result (λ r. r.top ≡ body_top k names.now body.now d) }
    ensures numbers { OnOk result (BodyNumbers body.now) }
{
    let mut code = Vec::new(alloc);
    let top = emit_body(&mut code, k, names, variables, body, d)?;
    join_jumps(code.as_mut_slice());
    Ok(Piece { code, top })
}

fn sent_piece(
    alloc: Global,
    k: u32,
    names: &[Known],
    formulas: &[Formula],
    p: u16,
    d: u16,
) -> Result<Piece, NoMemory>
    requires few { k ≤ 64 }
    requires near { d < 2 ^ 12 }
    requires places { p + 64 * length formulas.now < 2 ^ 16 }
    ensures code { IfOk result (λ r. r.code.items
        ≡ joined_code (values_code k names.now formulas.now p d)) }
    ensures top { IfOk result (λ r. r.top ≡ values_top k names.now formulas.now d) }
    ensures numbers { OnOk result (ValuesNumbers formulas.now) }
{
    let mut code = Vec::new(alloc);
    let top = emit_values(&mut code, k, names, formulas, p, d)?;
    join_jumps(code.as_mut_slice());
    Ok(Piece { code, top })
}

/// The code of a condition, and where its value stands.
fn condition_piece(
    alloc: Global,
    k: u32,
    names: &[Known],
    formula: &Formula,
    d: u16,
) -> Result<(Piece, u16), NoMemory>
    requires few { k ≤ 64 }
    requires near { d < 2 ^ 12 }
    ensures code { IfOk result (λ r. r.0.code.items
        ≡ joined_code (code_of k names.now formula.now d)) }
    ensures top { IfOk result (λ r. r.0.top ≡ top_of k names.now formula.now d) }
    ensures place { IfOk result (λ r. r.1 ≡ place_of names.now formula.now d) }
    ensures numbers { OnOk result (HasSmallNumbers formula.now) }
{
    let mut code = Vec::new(alloc);
    let scope = Scope::Outermost(names);
    let value = emit(&mut code, k, &scope, formula.expr(), d)?;
    let top = value.top;
    join_jumps(code.as_mut_slice());
    Ok((Piece { code, top }, value.place))
}

/// The code of a block over these state variables, and where the words end that it needs.
fn compile_block(
    alloc: Global,
    program: &Program,
    variables: &[Known],
    message: u16,
    block: &Block,
) -> Result<(BlockCode, usize), NoMemory>
    requires variables { variables.now ≡ state_names program.now }
    requires message { message ≡ message_place program.now }
    requires low { message < 2 ^ 11 }
    requires counted { length block.now.sent ≡ length block.now.fields }
    ensures code { IfOk result (λ r. block_view r.0 ≡ block_code program.now block.now) }
    ensures top { IfOk result (λ r. r.1 ≡ block_top program.now block.now) }
    ensures numbers { OnOk result (BlockNumbers block.now) }
{
    let k = program.values();
    let Readable { names, free } = names_in(alloc, program, message, block)?;
    let (condition, place) = condition_piece(alloc, k, variables, block.condition(), free)?;
    let sent = sent_piece(alloc, k, variables, block.sent(), message, free)?;
    let on_message = body_piece(alloc, k, &names, variables, block.on_message(), free)?;
    let end = body_piece(alloc, k, variables, variables, block.end(), free)?;
    let top = condition.top.max(sent.top.max(on_message.top.max(end.top)));
    let code = BlockCode {
        free,
        condition: condition.code,
        place,
        sent: sent.code,
        on_message: on_message.code,
        end: end.code,
    };
    Ok((code, top))
}

/// Adds the code of blocks, and says where the words end that it needs.
pub(crate) fn compile_blocks(
    codes: &mut Vec<BlockCode>,
    alloc: Global,
    program: &Program,
    variables: &[Known],
    message: u16,
    blocks: &[Block],
) -> Result<usize, NoMemory>
    requires variables { variables.now ≡ state_names program.now }
    requires message { message ≡ message_place program.now }
    requires low { message < 2 ^ 11 }
    requires counted { SendsFields blocks.now }
    ensures codes { OnOk result (map block_view codes.new.items
        ≡ map block_view codes.old.items ++ map (block_code program.now) blocks.now) }
    ensures top { IfOk result (λ n. n ≡ blocks_top program.now blocks.now) }
    ensures numbers { OnOk result (BlocksNumbers blocks.now) }
{
    match blocks {
        [] => Ok(message as usize),
        [first, rest @ ..] => {
            let (code, top) = compile_block(alloc, program, variables, message, first)?;
            codes.push(code)?;
            let rest_top = compile_blocks(codes, alloc, program, variables, message, rest)?;
            Ok(top.max(rest_top))
        }
    }
}

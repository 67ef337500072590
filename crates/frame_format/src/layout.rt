//! What frames the messages of a program have.
ghost use Rattle.std.specs.Prelude.{ℕ, ◌≡◌, ◌≤◌, ◌<◌, ◌+◌, ◌-◌, ◌%◌, [], length, slice_get};
ghost use Rattle.std.specs.Prelude.{slice_index_or, option_copied, unwrap_or, IfOk, Some};
ghost use Rattle.run_events.specs.Limits.{max_nodes, max_rounds};
ghost use Rattle.round_check.specs.Shapes.{message_kinds};
ghost use Rattle.frame_format.specs.Formats.{format_of, kinds_at, position, size, IsBlock};
ghost use Rattle.frame_format.specs.Formats.{IsFormat};

use crate::block::BlockLayout;
use round_check::Checked;
use round_lang::{Block, Kind, Shape};
use run_events::NoMemory;
use std::alloc::Global;
use std::marker::Model;

/// The frames of a checked program's messages among some nodes. Contracts see the numbers of nodes
/// and values, the period, and the kinds of each block's fields.
#[derive(Drop, Debug)]
pub struct Layout {
    nodes: u32,
    values: u32,
    period: u32,
    blocks: Vec<BlockLayout>,
}

impl Model for Layout {
    ghost use Rattle.frame_format.specs.Formats.{Format, IsFormat};

    ghost Value = { Format };

    ghost view = { λ l. record {
      nodes = l.nodes;
      values = l.values;
      period = l.period;
      blocks = l.blocks.items;
    } };

    ghost invariant = { λ l. IsFormat (record {
      nodes = l.nodes;
      values = l.values;
      period = l.period;
      blocks = l.blocks.items;
    }) };
}

impl Layout {
    /// The frames that messages of the program have among so many nodes, 1 to 16.
    pub fn of(alloc: Global, program: &Checked, nodes: u32) -> Result<Layout, NoMemory>
        requires some { 1 ≤ nodes }
        requires few { nodes ≤ max_nodes }
        ensures { IfOk result (λ layout. layout ≡ format_of program.now nodes) }
    {
        let blocks = block_layouts(alloc, program)?;
        let program = program.program();
        Ok(Layout {
            nodes,
            values: program.values(),
            period: program.period(),
            blocks,
        })
    }

    /// The number of nodes.
    pub fn nodes(&self) -> u32
        ensures value { result ≡ self.now.nodes }
        ensures few { result ≤ max_nodes }
    {
        self.nodes
    }

    /// K, the number of values.
    pub fn values(&self) -> u32
        ensures value { result ≡ self.now.values }
        ensures few { result ≤ 64 }
    {
        self.values
    }

    /// The position of a round in the period, from 0.
    pub fn position(&self, round: u32) -> u32
        ensures value { result ≡ position self.now round }
        ensures few { result < 8 }
    {
        round.saturating_sub(1) % self.period
    }

    fn block(&self, round: u32) -> Option<&BlockLayout>
        ensures { unwrap_or (option_copied result) [] ≡ kinds_at self.now round }
    {
        self.blocks.get(self.position(round) as usize)
    }

    /// The kinds of the fields in a round's messages, as a shape if there are any.
    pub fn shape(&self, round: u32) -> Option<&Shape>
        ensures { unwrap_or (option_copied result) [] ≡ kinds_at self.now round }
    {
        match self.block(round) {
            Some(block) => Some(block.shape()),
            None => None,
        }
    }

    /// The kinds of the fields in a round's messages.
    pub fn kinds(&self, round: u32) -> &[Kind]
        ensures value { result.now ≡ kinds_at self.now round }
        ensures block { IsBlock result.now }
    {
        match self.block(round) {
            Some(block) => block.shape().kinds(),
            None => &[],
        }
    }

    /// How many bytes the fields of a round's messages take.
    pub fn size(&self, round: u32) -> usize
        ensures value { result ≡ size (kinds_at self.now round) }
        ensures limit { result ≤ 2048 }
    {
        match self.block(round) {
            Some(block) => block.size(),
            None => 0,
        }
    }

    /// How many bytes the frames of a round have; the round is 1 to 4,096.
    pub fn len(&self, round: u32) -> usize
        requires first { 1 ≤ round }
        requires last { round ≤ max_rounds }
        ensures value { result ≡ 13 + size (kinds_at self.now round) }
        ensures limit { result ≤ 2061 }
    {
        13 + self.size(round)
    }

    /// Nothing at run time: what every layout keeps.
    pub fn lawful(&self)
        ensures { IsFormat self.now }
    {
        let _nodes = self.nodes;
    }
}

/// The layout of each block.
fn block_layouts(alloc: Global, program: &Checked) -> Result<Vec<BlockLayout>, NoMemory>
    ensures blocks { IfOk result (λ blocks. blocks.items ≡ message_kinds program.now) }
    ensures lawful { IfOk result (λ blocks. (i : ℕ) → IsBlock (slice_index_or blocks.items i [])) }
{
    let listed = program.program().blocks();
    let mut blocks = Vec::with_capacity(alloc, listed.len())?;
    for (place, block) in listed.iter().enumerate() {
        blocks.push(block_layout(program, place, block)?)?;
    }
    Ok(blocks)
}

/// The layout of the block at a place of a program.
fn block_layout(program: &Checked, place: usize, block: &Block) -> Result<BlockLayout, NoMemory>
    requires { slice_get program.now.blocks place ≡ Some block.now }
    ensures value { IfOk result (λ b. b ≡ slice_index_or (message_kinds program.now) place []) }
    ensures block { IfOk result IsBlock }
{
    // Nothing at run time: how many values and fields there can be.
    let _values = program.program().values();
    let _fields = block.fields();
    Ok(BlockLayout::new(shape_at(program, place)?))
}

/// The shape of the messages of the block at a place.
fn shape_at(program: &Checked, place: usize) -> Result<Shape, NoMemory>
    ensures { IfOk result (λ shape. shape
        ≡ unwrap_or (slice_get (message_kinds program.now) place) []) }
{
    match program.message_shape(place) {
        Some(shape) => shape.copy(),
        None => Ok(Shape::empty()),
    }
}

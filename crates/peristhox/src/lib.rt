// The C face: each call gives back code times 2^32 plus figure.

#![tactic(auto)]

ghost use Rattle.std.specs.Prelude.{◌≡◌};
ghost use Rattle.format.specs.Read.{table_read};
ghost use Rattle.answers.specs.Numbers.{packed};
ghost use Rattle.calls.specs.Answers.{checked, rewritten_answer, rewritten_room};
ghost use Rattle.peristhox.specs.Faces.{WeighFace, BlocksFace, CollapseFace, ShrinkFace};

use weigh::Weighing;

// Whether the bytes are a table: done with its number of states.
#[unsafe(no_mangle)]
pub extern "C" fn peristhox_check(table: &[u8]) -> u64
    ensures { result ≡ packed (checked (table_read table.now)) }
{
    answers::pack(calls::check(table))
}

// A read table written again, into the room: done with its length.
#[unsafe(no_mangle)]
pub extern "C" fn peristhox_rewrite(table: &[u8], room: &mut [u8]) -> u64
    ensures answer { result ≡ packed (rewritten_answer (table_read table.now) room.old) }
    ensures room { room.new ≡ rewritten_room (table_read table.now) room.old }
{
    answers::pack(calls::rewrite(table, room))
}

// The weight of a tree at each state for each node, into the sheet: done with the number of nodes, and only then the tree's weight
// is written.
#[unsafe(no_mangle)]
pub extern "C" fn peristhox_weigh(
    table: &[u8],
    tree: &[u8],
    sheet: &mut [i64],
    weight: &mut i64,
) -> u64
    ensures { WeighFace table.now tree.now sheet.old weight.old result sheet.new weight.new }
{
    let weighing = weigh::weigh(table, tree, sheet);
    if Weighing::weight_given(weighing) {
        *weight = Weighing::weight_beside(weighing);
    }
    answers::pack(weighing.map(|found| found.nodes))
}

// The coarsest blocks of a table, one byte a state, into the room: done with their number.
#[unsafe(no_mangle)]
pub extern "C" fn peristhox_blocks(direction: u32, table: &[u8], room: &mut [u8]) -> u64
    ensures { BlocksFace direction table.now room.old result room.new }
{
    answers::pack(collapse::blocks(direction, table, room))
}

// A table collapsed by its coarsest blocks, into the room: done with its length.
#[unsafe(no_mangle)]
pub extern "C" fn peristhox_collapse(direction: u32, table: &[u8], room: &mut [u8]) -> u64
    ensures { CollapseFace direction table.now room.old result room.new }
{
    let counted = collapse::collapse(direction, table, room);
    answers::pack(counted.map(|found| found.length))
}

// A table shrunk from a side, into the room: done with its length.
#[unsafe(no_mangle)]
pub extern "C" fn peristhox_shrink(direction: u32, table: &[u8], room: &mut [u8]) -> u64
    ensures { ShrinkFace direction table.now room.old result room.new }
{
    let counted = collapse::shrink(direction, table, room);
    answers::pack(counted.map(|found| found.length))
}

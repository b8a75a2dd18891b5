// The calls that find blocks and shrink: blocks, collapse, shrink. No caller is trusted to have looked at a table before.

#![tactic(auto)]

ghost use Rattle.std.specs.Prelude.{◌≡◌, ◌≤◌, length, take};
ghost use Rattle.format.specs.Written.{bytes_of};
ghost use Rattle.tables.specs.Record.{table_of};
ghost use Rattle.writer.specs.Writable.{Writable};
ghost use Rattle.calls.specs.Answers.{fits, filled};
ghost use Rattle.theory.specs.Blocks.{block_of, block_count};
ghost use Rattle.theory.specs.Direction.{CoarsestBlocks};
ghost use Rattle.theory.specs.Collapse.{CollapsedByCoarsest};
ghost use Rattle.theory.specs.Shrink.{Shrinks};
ghost use Rattle.collapse.specs.Promises.{blocks_answer, written, states_beside, transitions_beside, Blocks, Collapses, ShrinksTo};
ghost use Rattle.collapse.specs.Steps.{DirectionAsked, LengthLacking};
ghost use Rattle.collapse.specs.Readable.{Readable};

use answers::{Answer, Refusal};
use partition::Partition;
use profiles::Entries;
use tables::TableRecord;
use theory::Direction;

// What a collapse or a shrink that is done gives back: the length written, and the new counts of states and transitions.
#[derive(Clone, Copy, Debug, PartialEq, Eq)]
pub struct Counted {
    pub length: usize,
    pub states: usize,
    pub transitions: usize,
}

impl Counted {
    // The new counts of states and transitions beside an answer, as document 01 has them: 0 on refusal.
    pub fn counts_beside(answer: Result<Counted, Refusal>) -> (usize, usize)
        ensures states { result.0 ≡ states_beside answer }
        ensures transitions { result.1 ≡ transitions_beside answer }
    {
        match answer {
            Ok(counted) => (counted.states, counted.transitions),
            Err(_) => (0, 0),
        }
    }
}

// The direction with a number: 0 for backward, 1 for forward. The calls take the number, since C has nothing else, and refuse it.
fn direction_of(number: u32) -> Result<Direction, Refusal>
    ensures { DirectionAsked number result }
{
    Direction::try_from(number).map_err(|_| Refusal::NoDirection)
}

// No table's written form is longer, so in such a room the length need not be counted first.
const LONGEST: usize = 65415;

// The length of a table's written form, if a room of so many bytes is too short for it.
fn length_lacking(table: &TableRecord, room: usize) -> Option<usize>
    requires { Writable table.now }
    ensures { LengthLacking (length (bytes_of (table_of table.now))) room result }
{
    if LONGEST <= room {
        return None;
    }
    let needed = writer::length_of(table);
    if room < needed {
        return Some(needed);
    }
    None
}

// A table's written form into the room. A refusal leaves the room alone.
fn put_table(table: &TableRecord, room: &mut [u8]) -> Result<Counted, Refusal>
    requires { Writable table.now }
    ensures answer { result ≡ written (fits (bytes_of (table_of table.now)) room.old) (table_of table.now) }
    ensures room { room.new ≡ filled (fits (bytes_of (table_of table.now)) room.old) (bytes_of (table_of table.now)) room.old }
{
    if let Some(needed) = length_lacking(table, room.len()) {
        return Err(Refusal::RoomTooShort(needed));
    }
    Ok(Counted {
        length: writer::write(table, room),
        states: table.states,
        transitions: table.count,
    })
}

// The blocks into the room, one byte a state.
fn put_blocks(found: Partition, states: usize, room: &mut [u8]) -> Answer
    requires { states ≤ 256 }
    ensures answer { result ≡ blocks_answer (fits (take states found.blocks.list) room.old) states found.number }
    ensures room { room.new ≡ filled (fits (take states found.blocks.list) room.old) (take states found.blocks.list) room.old }
{
    if room.len() < states {
        return Err(Refusal::RoomTooShort(states));
    }
    found.blocks.put(states, room);
    Ok(found.number)
}

// The coarsest blocks of a table, one byte a state: done with their number.
pub fn blocks(direction: u32, table: &[u8], room: &mut [u8]) -> Answer
    ensures { Blocks direction table.now room.old result room.new }
{
    let direction = direction_of(direction)?;
    let record = tables::read(table)?;
    let mut entries = Entries {
        keys: [0; 16000],
        codes: [0; 16000],
    };
    let found = refine::coarsest(direction, &record, &mut entries);
    put_blocks(found, record.states, room)
}

// A record collapsed by its coarsest blocks. The entries are lent to work in. (The blocks are found by the caller: what finding them
// needs on the stack and what adding up needs are not there at the same time.)
fn collapsed(
    direction: Direction,
    table: &TableRecord,
    found: &Partition,
    entries: &mut Entries,
) -> TableRecord
    requires readable { Readable table.now }
    requires coarsest { CoarsestBlocks direction (table_of table.now) (take table.now.states found.now.blocks.list) }
    requires number { found.now.number ≡ block_count (block_of (take table.now.states found.now.blocks.list)) table.now.states }
    ensures readable { Readable result }
    ensures collapsed { CollapsedByCoarsest direction (table_of table.now) (table_of result) }
{
    adding::add_up(direction, table, &found.blocks, found.number, entries)
}

// A table collapsed by its coarsest blocks: done with the length written.
pub fn collapse(direction: u32, table: &[u8], room: &mut [u8]) -> Result<Counted, Refusal>
    ensures { Collapses direction table.now room.old result room.new }
{
    let direction = direction_of(direction)?;
    let record = tables::read(table)?;
    let mut entries = Entries {
        keys: [0; 16000],
        codes: [0; 16000],
    };
    let found = refine::coarsest(direction, &record, &mut entries);
    let next = collapsed(direction, &record, &found, &mut entries);
    put_table(&next, room)
}

// Backward and forward collapses take turns, from a side on, until one merges no states. (The loop goes on as long as states merge; it
// counts nothing.)
fn shrunk(direction: Direction, table: &mut TableRecord)
    requires { Readable table.old }
    ensures readable { Readable table.new }
    ensures shrinks { Shrinks direction (table_of table.old) (table_of table.new) }
{
    let mut entries = Entries {
        keys: [0; 16000],
        codes: [0; 16000],
    };
    let mut side = direction;
    // more than any table has
    let mut states_before = 257;
    while table.states < states_before {
        states_before = table.states;
        let found = refine::coarsest(side, table, &mut entries);
        *table = collapsed(side, table, &found, &mut entries);
        side = side.other();
    }
}

// A table shrunk from a side: done with the length written.
pub fn shrink(direction: u32, table: &[u8], room: &mut [u8]) -> Result<Counted, Refusal>
    ensures { ShrinksTo direction table.now room.old result room.new }
{
    let direction = direction_of(direction)?;
    let mut record = tables::read(table)?;
    shrunk(direction, &mut record);
    put_table(&record, room)
}

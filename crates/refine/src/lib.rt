// The coarsest bisimulation of a table, in both directions. Blocks are split by the profiles of their members until no state is
// left to look at; a state is looked at again only where a state that it depends on has a new block.

#![tactic(auto)]

ghost use Rattle.std.specs.Prelude.{◌≡◌, true, false, ℕ, ◌+◌, ◌-◌, ◌≤◌, ◌<◌, length, get_or, take};
ghost use Rattle.model.specs.Table.{Proper};
ghost use Rattle.tables.specs.Record.{table_of, Holds};
ghost use Rattle.theory.specs.Blocks.{block_of, block_count};
ghost use Rattle.theory.specs.Direction.{CoarsestBlocks, other};
ghost use Rattle.uses.specs.Tables.{ListsUses};
ghost use Rattle.partition.specs.Members.{flag};
ghost use Rattle.partition.specs.Numbering.{Numbered};
ghost use Rattle.dependents.specs.Tables.{DependsIn};
ghost use Rattle.refine.specs.Sides.{profiles_in};
ghost use Rattle.refine.specs.Splits.{Settled, SplitUp, Parted, PartsNumbered, StaySettled, SplitUntilClean};
ghost use Rattle.theory.specs.Arithmetic.{arithmetic_number};

use partition::{Partition, members, numbering, parts};
use profiles::Entries;
use states::State;
use tables::TableRecord;
use theory::Direction;
use uses::Uses;

// The coarsest blocks, numbered by first use. The entries are lent to work in.
pub fn coarsest(direction: Direction, table: &TableRecord, entries: &mut Entries) -> Partition
    requires holds { Holds table.now (table_of table.now) }
    requires proper { Proper (table_of table.now) }
    ensures coarsest { CoarsestBlocks direction (table_of table.now) (take table.now.states result.blocks.list) }
    ensures counted { result.number ≡ block_count (block_of (take table.now.states result.blocks.list)) table.now.states }
{
    let mut own = Uses::new();
    own.fill(direction, table);
    // the uses in the other direction tell who depends on a state
    let mut others = Uses::new();
    others.fill(direction.other(), table);
    let start = numbering::start(direction, table.states, &table.finals);
    let refined = split_until_clean(direction, table, &own, &others, start, entries);
    numbering::by_first_use(table.states, &refined.blocks)
}

// Splits blocks until no state is dirty. At the start every state is.
fn split_until_clean(
    direction: Direction,
    table: &TableRecord,
    own: &Uses,
    others: &Uses,
    start: Partition,
    entries: &mut Entries,
) -> Partition
    requires few { table.now.states ≤ 256 }
    requires own_listed { ListsUses direction table.now own.now }
    requires others_listed { ListsUses (other direction) table.now others.now }
    requires numbered { Numbered table.now.states start.blocks.list start.number }
    requires stay_settled { StaySettled (arithmetic_number table.now.arithmetic) (profiles_in direction table.now own.now) (DependsIn direction table.now others.now)
        table.now.states start.blocks.list start.number }
    ensures { SplitUntilClean (arithmetic_number table.now.arithmetic) (profiles_in direction table.now own.now) (DependsIn direction table.now others.now)
        table.now.states start.blocks.list start.number result.blocks.list result.number }
{
    let mut dirty = [true; 256];
    let mut present = start;
    while let Some(first) = members::first_dirty(table.states, &dirty) {
        split(
            direction,
            table,
            own,
            others,
            first,
            &mut present,
            &mut dirty,
            entries,
        );
    }
    present
}

// Splits the block of the first dirty state by the profiles of its members.
fn split(
    direction: Direction,
    table: &TableRecord,
    own: &Uses,
    others: &Uses,
    first: State,
    present: &mut Partition,
    dirty: &mut [bool; 256],
    entries: &mut Entries,
)
    requires few { table.now.states ≤ 256 }
    requires own_listed { ListsUses direction table.now own.now }
    requires others_listed { ListsUses (other direction) table.now others.now }
    requires numbered { Numbered table.now.states present.old.blocks.list present.old.number }
    requires known { first.0 < table.now.states }
    requires first_is_dirty { flag dirty.old first.0 ≡ true }
    requires clean_before { (q : ℕ) → q < first.0 → flag dirty.old q ≡ false }
    requires settled { Settled (arithmetic_number table.now.arithmetic) (profiles_in direction table.now own.now (block_of present.old.blocks.list))
        table.now.states present.old.blocks.list dirty.old }
    ensures { SplitUp (arithmetic_number table.now.arithmetic) (profiles_in direction table.now own.now (block_of present.old.blocks.list)) (DependsIn direction table.now others.now)
        table.now.states (get_or present.old.blocks.list first.0 0)
        present.old.blocks.list dirty.old present.old.number present.new.blocks.list dirty.new present.new.number }
{
    let gathered = members::gather(first, table.states, &present.blocks, dirty);
    let members = &gathered.found[..gathered.count];
    let mut part = [0; 256];
    let parts = grouping::group(
        direction,
        table,
        own,
        members,
        &present.blocks,
        &mut part,
        entries,
    );
    number_parts(
        direction,
        table,
        others,
        first,
        members,
        gathered.clean,
        parts,
        &part,
        present,
        dirty,
    );
}

// Gives the parts of the first dirty state's block their numbers, and marks the states that depend on a member with a new one.
fn number_parts(
    direction: Direction,
    table: &TableRecord,
    others: &Uses,
    first: State,
    members: &[u8],
    clean: Option<usize>,
    parts: usize,
    part: &[u8; 256],
    present: &mut Partition,
    dirty: &mut [bool; 256],
)
    requires others_listed { ListsUses (other direction) table.now others.now }
    requires parted { Parted present.old.number (length members.now) clean members.now parts part.now }
    ensures total { present.new.number ≡ present.old.number + parts - 1 }
    ensures numbered { PartsNumbered (DependsIn direction table.now others.now) (get_or present.old.blocks.list first.0 0)
        present.old.number (length members.now) clean members.now parts part.now present.old.blocks.list dirty.old present.new.blocks.list dirty.new }
{
    let block = present.blocks.of(first);
    let total = present.number;
    let keeper = parts::keeper(members.len(), clean, parts, part);
    parts::renumber(
        members,
        part,
        block,
        total,
        keeper,
        &mut present.blocks,
        dirty,
    );
    // where there is one part, no member has a new number
    if 1 < parts {
        dependents::mark_moved(direction, members, part, keeper, table, others, dirty);
    }
    present.number = total + parts - 1;
}

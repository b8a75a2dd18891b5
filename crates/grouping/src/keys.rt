// The profiles of states: the key of each use under the present blocks, packed into one number.

ghost use Rattle.std.specs.Prelude.{◌≡◌, ℕ, ◌/◌, ◌≤◌, ◌<◌, map, length, get_or};
ghost use Rattle.std.proofs.Math.Seq.{slice};
ghost use Rattle.theory.specs.Blocks.{block_of};
ghost use Rattle.theory.specs.declared.Direction.TheVariants.{Backward as backward, Forward as forward};
ghost use Rattle.uses.specs.Theory.{row_for};
ghost use Rattle.uses.specs.Tables.{listed_in, ListsUses};
ghost use Rattle.tables.specs.Rows.{RowIn};
ghost use Rattle.grouping.specs.Keys.{children_of, key_under, entry_in};
ghost use Rattle.grouping.specs.Steps.{FilledIn, ProfiledIn, AllProfiledIn, KeptBeside};
ghost use Rattle.theory.specs.Arithmetic.{arithmetic_number};

use partition::BlockList;
use profiles::{Entries, Region, SYMBOL};
use states::State;
use tables::TableRecord;
use theory::Direction;
use uses::Uses;

// Backward: the symbol and the blocks of the children.
fn key_into(j: usize, table: &TableRecord, blocks: &BlockList) -> u64
    requires { RowIn table.now j }
    ensures { result ≡ key_under backward table.now (block_of blocks.now.list) j }
{
    let mut packed: u64 = 0;
    for child in table.children_of(j) {
        packed = packed * 256 + blocks.of(State(*child)).0 as u64;
    }
    table.symbol[j] as u64 * SYMBOL + packed
}

// Forward: the place, the symbol, the other children and the target's block. The uses of a state are listed place by place, and at one
// place they ascend by symbol and other children, so with the place on top their keys ascend in all but the block.
fn key_at(u: usize, table: &TableRecord, blocks: &BlockList) -> u64
    requires { RowIn table.now (u / 4) }
    ensures { result ≡ key_under forward table.now (block_of blocks.now.list) u }
{
    let j = u / 4;
    let place = u % 4;
    let children = table.children_of(j);
    // a loop of its own: one function for both keys would need a place to leave out, and a closure for what is packed
    let mut packed: u64 = 0;
    for (k, child) in children.iter().enumerate() {
        if k != place {
            packed = packed * 256 + *child as u64;
        }
    }
    let top = place as u64 * 128 + table.symbol[j] as u64;
    top * SYMBOL + (packed * 256 + blocks.of(State(table.target[j])).0 as u64)
}

fn key_of(direction: Direction, u: usize, table: &TableRecord, blocks: &BlockList) -> u64
    requires { RowIn table.now (row_for direction u) }
    ensures { result ≡ key_under direction table.now (block_of blocks.now.list) u }
{
    match direction {
        Direction::Backward => key_into(u, table, blocks),
        Direction::Forward => key_at(u, table, blocks),
    }
}

// The transition that a use is of.
fn row_of(direction: Direction, u: usize) -> usize
    ensures { result ≡ row_for direction u }
{
    match direction {
        Direction::Backward => u,
        Direction::Forward => u / 4,
    }
}

// The keys and codes of the uses that the list has in the region.
fn fill(
    direction: Direction,
    region: Region,
    table: &TableRecord,
    uses: &Uses,
    blocks: &BlockList,
    entries: &mut Entries,
)
    requires { (i : ℕ) → region.lo ≤ i → i < region.hi → RowIn table.now (row_for direction (get_or uses.now.list i 0)) }
    ensures { FilledIn region.lo region.hi (map (entry_in direction table.now (block_of blocks.now.list)) (slice region.lo region.hi uses.now.list)) entries.old entries.new }
{
    for i in region.lo..region.hi {
        let u = uses.list[i] as usize;
        entries.keys[i] = key_of(direction, u, table, blocks);
        entries.codes[i] = table.code[row_of(direction, u)];
    }
}

// The profile of p, summed up in p's region. Answers where it ends.
fn sum_up_one(
    direction: Direction,
    p: State,
    table: &TableRecord,
    uses: &Uses,
    blocks: &BlockList,
    entries: &mut Entries,
) -> usize
    requires { ListsUses direction table.now uses.now }
    ensures profiled { ProfiledIn (arithmetic_number table.now.arithmetic) uses.now p.0 result (map (entry_in direction table.now (block_of blocks.now.list)) (listed_in uses.now p.0)) entries.new }
    ensures keys_kept { KeptBeside uses.now p.0 entries.old.keys entries.new.keys }
    ensures codes_kept { KeptBeside uses.now p.0 entries.old.codes entries.new.codes }
{
    let at = p.0 as usize;
    let region = Region {
        lo: uses.starts[at] as usize,
        hi: uses.starts[at + 1] as usize,
    };
    fill(direction, region, table, uses, blocks, entries);
    entries.sum_up(table.arithmetic, region)
}

// The profiles of the members, and where each ends.
pub fn sum_up_members(
    direction: Direction,
    table: &TableRecord,
    uses: &Uses,
    members: &[u8],
    blocks: &BlockList,
    ends: &mut [u16; 256],
    entries: &mut Entries,
)
    requires { ListsUses direction table.now uses.now }
    ensures { AllProfiledIn (entry_in direction table.now (block_of blocks.now.list)) (arithmetic_number table.now.arithmetic) uses.now (length members.now) members.now ends.new entries.new }
{
    for p in members {
        let end = sum_up_one(direction, State(*p), table, uses, blocks, entries);
        ends[*p as usize] = end as u16;
    }
}

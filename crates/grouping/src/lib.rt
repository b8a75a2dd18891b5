// Members of a block are put into parts: those with the same profile under the present blocks.

#![tactic(auto)]

mod comparing;
mod keys;

ghost use Rattle.std.specs.Prelude.{◌≤◌, length, map};
ghost use Rattle.theory.specs.Blocks.{block_of};
ghost use Rattle.uses.specs.Tables.{listed_in, ListsUses};
ghost use Rattle.grouping.specs.Keys.{entry_in};
ghost use Rattle.grouping.specs.Groups.{Grouped};
ghost use Rattle.theory.specs.Arithmetic.{arithmetic_number};

use partition::BlockList;
use profiles::Entries;
use tables::TableRecord;
use theory::IntoDirection;
use uses::Uses;

// Puts members into parts by their profiles under the present blocks. Answers how many parts there are.
pub fn group<D: IntoDirection>(
    direction: D,
    table: &TableRecord,
    uses: &Uses,
    members: &[u8],
    blocks: &BlockList,
    part: &mut [u8; 256],
    entries: &mut Entries,
) -> usize
    requires few { length members.now ≤ 256 }
    requires uses { ListsUses (D.side direction) table.now uses.now }
    ensures { Grouped (arithmetic_number table.now.arithmetic) (λ p. map (entry_in (D.side direction) table.now (block_of blocks.now.list)) (listed_in uses.now p)) (length members.now) members.now result part.new }
{
    let direction = direction.into_direction();
    // a member that is alone has no profile to compare
    if members.len() == 1 {
        part[0] = 0;
        return 1;
    }
    let mut ends = [0u16; 256];
    keys::sum_up_members(direction, table, uses, members, blocks, &mut ends, entries);
    comparing::group_by_profile(members, uses, &ends, entries, part)
}

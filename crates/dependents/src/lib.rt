// The states that depend on a state: backward the targets of the transitions that have it as a child, forward the children of the
// transitions that have it as their target.

#![tactic(auto)]

ghost use Rattle.std.specs.Prelude.{◌≤◌, length};
ghost use Rattle.theory.specs.Direction.{other};
ghost use Rattle.uses.specs.Theory.{row_for};
ghost use Rattle.uses.specs.Tables.{ListsUses};
ghost use Rattle.dependents.specs.Marks.{Marked};
ghost use Rattle.tables.specs.Rows.{RowIn};
ghost use Rattle.dependents.specs.Tables.{ChildOf, LeadsToIn, DependsIn, DependsOnMovedIn};

use states::State;
use tables::TableRecord;
use theory::{Direction, IntoDirection};
use uses::Uses;

// Marks the states that depend on a member whose part does not keep the block's number. The uses are those of the other direction.
pub fn mark_moved<D: IntoDirection>(
    direction: D,
    members: &[u8],
    part: &[u8; 256],
    keeper: usize,
    table: &TableRecord,
    uses: &Uses,
    dirty: &mut [bool; 256],
)
    requires few { length members.now ≤ 256 }
    requires uses { ListsUses (other (D.side direction)) table.now uses.now }
    ensures { Marked (DependsOnMovedIn (D.side direction) members.now part.now keeper table.now uses.now) dirty.old dirty.new }
{
    let direction = direction.into_direction();
    for (member, own) in members.iter().zip(part) {
        if *own as usize != keeper {
            mark(direction, State(*member), table, uses, dirty);
        }
    }
}

// Marks the states that depend on p.
fn mark(direction: Direction, p: State, table: &TableRecord, uses: &Uses, dirty: &mut [bool; 256])
    requires { ListsUses (other direction) table.now uses.now }
    ensures { Marked (DependsIn direction table.now uses.now p.0) dirty.old dirty.new }
{
    let own = p.0 as usize;
    let lo = uses.starts[own] as usize;
    let hi = uses.starts[own + 1] as usize;
    for number in &uses.list[lo..hi] {
        mark_use(direction, *number as usize, table, dirty);
    }
}

// Marks the states that a use of the other direction leads to.
fn mark_use(direction: Direction, number: usize, table: &TableRecord, dirty: &mut [bool; 256])
    requires { RowIn table.now (row_for (other direction) number) }
    ensures { Marked (LeadsToIn direction table.now number) dirty.old dirty.new }
{
    match direction {
        Direction::Backward => {
            let target = table.target[number / 4];
            dirty[target as usize] = true;
        }
        Direction::Forward => mark_children(number, table, dirty),
    }
}

fn mark_children(j: usize, table: &TableRecord, dirty: &mut [bool; 256])
    requires { RowIn table.now j }
    ensures { Marked (ChildOf table.now j) dirty.old dirty.new }
{
    for child in table.children_of(j) {
        dirty[*child as usize] = true;
    }
}

// The row of a node.

#![tactic(auto)]

ghost use Rattle.std.specs.Prelude.{◌+◌, ◌≤◌, ◌<◌, length, get_or};

use tables::TableRecord;

// The row of a node: its offset, its rank, where its children stand on the stack, and which transitions are its symbol's.
#[derive(Clone, Copy)]
pub struct Row {
    pub at: usize,
    pub rank: usize,
    pub top: usize,
    pub from: usize,
    pub to: usize,
    ghost few: { rank ≤ 4 },
    ghost on_stack: { top + rank ≤ 4096 },
}

impl Row {
    ghost use Rattle.weigh.specs.Rows.{RowAt};

    // The row of the node at an offset whose children stand on the stack from `top` on.
    pub(crate) fn of(
        t: &TableRecord,
        begins: &[u16; 129],
        tree: &[u8],
        at: usize,
        top: usize,
    ) -> Row
        requires inside { at < length tree.now }
        requires symbol { get_or tree.now at 0 < 128 }
        requires few { get_or t.now.ranks (get_or tree.now at 0) 0 ≤ 4 }
        requires on_stack { top + get_or t.now.ranks (get_or tree.now at 0) 0 ≤ 4096 }
        ensures { RowAt at top t.now.ranks begins.now tree.now result }
    {
        let symbol = tree[at] as usize;
        Row {
            at,
            rank: t.ranks[symbol] as usize,
            top,
            from: begins[symbol] as usize,
            to: begins[symbol + 1] as usize,
        }
    }
}

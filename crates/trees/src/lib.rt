// Trees as bytes: one byte a node, the symbol, in prefix order.

#![tactic(auto)]

ghost use Rattle.std.specs.Prelude.{◌≡◌};
ghost use Rattle.trees.specs.Read.{tree_read};

use answers::Refusal;

// How many nodes the tree over these ranks has that the bytes are, or why they are none.
#[tactic(auto, using(crate::specs::Steps::finished_at_end, crate::specs::Steps::due_at_end, crate::specs::Steps::finished_inside, crate::specs::Steps::due_too_late, crate::specs::Steps::due_unknown, crate::specs::Steps::due_known))]
pub fn read_tree(ranks: &[u8], tree: &[u8]) -> Result<usize, Refusal>
    ensures { result ≡ tree_read ranks.now tree.now }
{
    let mut due: usize = 1;
    for (at, byte) in tree.iter().enumerate() {
        if due == 0 {
            return Err(Refusal::TreeGoesOn(at));
        }
        let symbol = *byte as usize;
        if 4096 <= at {
            return Err(Refusal::TreeTooLong);
        }
        if ranks.len() <= symbol {
            return Err(Refusal::UnknownSymbol(at));
        }
        due = due - 1 + ranks[symbol] as usize;
    }
    if due != 0 {
        return Err(Refusal::TreeEnds(tree.len()));
    }
    Ok(tree.len())
}

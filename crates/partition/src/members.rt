// The members of a block that a step looks at: the dirty ones, and one clean one, which stands for all clean ones.

ghost use Rattle.std.specs.Prelude.{◌≡◌, true, false, ℕ, ◌≤◌, ◌<◌, IsTrue, ◌↔◌, MatchOption, length, get_or};
ghost use Rattle.partition.specs.Members.{flag, dirty_count, Members, DirtyMembers, CleanMember};

use crate::BlockList;
use states::{Block, State};

// The members found, how many they are, and the place of the clean one among them, if there is one.
#[derive(Clone, Copy)]
pub struct Gathered {
    pub found: [u8; 256],
    pub count: usize,
    pub clean: Option<usize>,
}

// The first dirty state. (A loop as in `count_dirty`; a chain with `position` has not been measured.)
pub fn first_dirty(states: usize, dirty: &[bool; 256]) -> Option<State>
    requires { states ≤ 256 }
    ensures { MatchOption result
        ((q : ℕ) → q < states → flag dirty.now q ≡ false)
        (λ first. (first.0 < states) × (flag dirty.now first.0 ≡ true) × ((q : ℕ) → q < first.0 → flag dirty.now q ≡ false)) }
{
    for q in 0..states {
        if dirty[q] {
            return Some(State(q as u8));
        }
    }
    None
}

// The members of the first dirty state's block.
pub fn gather(first: State, states: usize, blocks: &BlockList, dirty: &[bool; 256]) -> Gathered
    requires few { states ≤ 256 }
    requires known { first.0 < states }
    requires clean_before { (q : ℕ) → q < first.0 → flag dirty.now q ≡ false }
    ensures { Members (get_or blocks.now.list first.0 0) states blocks.now.list dirty.now result.found result.count result.clean }
{
    let block = blocks.of(first);
    let mut gathered = gather_dirty(block, first, states, blocks, dirty);
    if let Some(q) = near_clean(block, first, states, blocks, dirty) {
        gathered.clean = Some(gathered.count);
        gathered.found[gathered.count] = q.0;
        gathered.count += 1;
    }
    gathered
}

// The dirty members of a block; no dirty state is below `first`. It ends as soon as no dirty state is left.
fn gather_dirty(
    block: Block,
    first: State,
    states: usize,
    blocks: &BlockList,
    dirty: &[bool; 256],
) -> Gathered
    requires few { states ≤ 256 }
    requires known { first.0 < states }
    requires clean_before { (q : ℕ) → q < first.0 → flag dirty.now q ≡ false }
    ensures dirty_ones { DirtyMembers block.0 states blocks.now.list dirty.now result.found result.count }
    ensures no_clean_one { result.clean ≡ None }
{
    let mut left = count_dirty(first.0 as usize, states, dirty);
    let mut found = [0; 256];
    let mut count = 0;
    for q in first.0 as usize..states {
        if left == 0 {
            break;
        }
        if dirty[q] {
            left -= 1;
            if blocks.list[q] == block.0 {
                found[count] = q as u8;
                count += 1;
            }
        }
    }
    Gathered {
        found,
        count,
        clean: None,
    }
}

// How many states are dirty; no dirty state is below `first`. (Tried as a chain with `filter` and `count`: slower, for the blocks of a
// chain of 250 levels 104 instead of 66 microseconds backward and 138 instead of 109 forward.)
fn count_dirty(first: usize, states: usize, dirty: &[bool; 256]) -> usize
    requires few { states ≤ 256 }
    requires known { first ≤ states }
    requires clean_before { (q : ℕ) → q < first → flag dirty.now q ≡ false }
    ensures { result ≡ dirty_count dirty.now states }
{
    let mut count = 0;
    for q in first..states {
        if dirty[q] {
            count += 1;
        }
    }
    count
}

// A clean member of a block, the nearest to a state of it.
fn near_clean(
    block: Block,
    first: State,
    states: usize,
    blocks: &BlockList,
    dirty: &[bool; 256],
) -> Option<State>
    requires few { states ≤ 256 }
    requires known { first.0 < states }
    ensures { CleanMember block.0 states blocks.now.list dirty.now result }
{
    let middle = first.0 as usize;
    for distance in 0..states {
        if is_clean(middle + distance, block, states, blocks, dirty) {
            return Some(State((middle + distance) as u8));
        }
        if distance <= middle && is_clean(middle - distance, block, states, blocks, dirty) {
            return Some(State((middle - distance) as u8));
        }
    }
    None
}

// Whether q is a state, a member of the block, and clean.
fn is_clean(q: usize, block: Block, states: usize, blocks: &BlockList, dirty: &[bool; 256]) -> bool
    requires { states ≤ 256 }
    ensures { IsTrue result ↔ ((q < states) × (get_or blocks.now.list q 0 ≡ block.0) × (flag dirty.now q ≡ false)) }
{
    q < states && !dirty[q] && blocks.list[q] == block.0
}

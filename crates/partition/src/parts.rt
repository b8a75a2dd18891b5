// New numbers for the parts of a block: one part keeps the block's number, the others get fresh ones.

ghost use Rattle.std.specs.Prelude.{◌≡◌, ℕ, ◌+◌, ◌≤◌, ◌<◌, IfSome, length, get_or};
ghost use Rattle.partition.specs.Parts.{number_of, Renumbered, Fits};

use crate::BlockList;
use states::Block;
use std::cmp::Ordering;

// The part that keeps the block's number: that of the clean members, or else the largest, so that few states get a new one.
pub fn keeper(count: usize, clean: Option<usize>, parts: usize, part: &[u8; 256]) -> usize
    requires some { 0 < count }
    requires few { count ≤ 256 }
    requires parts_few { parts ≤ 256 }
    requires within { (i : ℕ) → i < count → get_or part.now i 0 < parts }
    requires clean_place { IfSome clean (λ place. place < count) }
    ensures known { result < parts }
    ensures of_clean { IfSome clean (λ place. result ≡ get_or part.now place 0) }
{
    match clean {
        Some(place) => part[place] as usize,
        None => largest(&part[..count], parts),
    }
}

fn largest(part: &[u8], parts: usize) -> usize
    requires few { length part.now ≤ 256 }
    requires some { 0 < parts }
    requires parts_few { parts ≤ 256 }
    requires within { (i : ℕ) → i < length part.now → get_or part.now i 0 < parts }
    ensures { result < parts }
{
    let mut sizes = [0u16; 256];
    let mut best = 0;
    for m in part {
        let own = *m as usize;
        sizes[own] += 1;
        if sizes[best] < sizes[own] {
            best = own;
        }
    }
    best
}

// The number of a part.
fn number_of(m: usize, keeper: usize, block: Block, total: usize) -> Block
    requires { Fits keeper total m }
    ensures { result.0 ≡ number_of keeper block.0 total m }
{
    match m.cmp(&keeper) {
        Ordering::Less => Block((total + m) as u8),
        Ordering::Equal => block,
        Ordering::Greater => Block((total + m - 1) as u8),
    }
}

// Gives the members the numbers of their parts, and clears the dirt of the block.
pub fn renumber(
    members: &[u8],
    part: &[u8; 256],
    block: Block,
    total: usize,
    keeper: usize,
    blocks: &mut BlockList,
    dirty: &mut [bool; 256],
)
    requires few { length members.now ≤ 256 }
    requires fits { (i : ℕ) → i < length members.now → Fits keeper total (get_or part.now i 0) }
    requires one_part { (i k : ℕ) → i < length members.now → k < length members.now
        → get_or members.now i 0 ≡ get_or members.now k 0 → get_or part.now i 0 ≡ get_or part.now k 0 }
    ensures { Renumbered (length members.now) block.0 total keeper members.now part.now blocks.old.list dirty.old blocks.new.list dirty.new }
{
    for (p, m) in members.iter().zip(part) {
        blocks.list[*p as usize] = number_of(*m as usize, keeper, block, total).0;
        dirty[*p as usize] = false;
    }
}

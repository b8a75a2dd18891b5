// Blocks of states: the lists by state and by block, the numbers to start from and to end with, the members of a block that a step looks
// at, and new numbers for its parts.
//
// The numbers of states and of blocks both begin at 0, so a list by state and a list by block look alike. Each is a type of its own here,
// with a private field: outside this crate only a state finds a block in the one, and only a block finds a state in the other.
//
// Arrays by state have 256 places, whatever the number of states: a state is a byte, so it finds its place with no bound to prove. A slice
// of the first `states` places would ask for one at each step.

#![tactic(auto)]

pub mod members;
pub mod numbering;
pub mod parts;

ghost use Rattle.std.specs.Prelude.{◌≡◌, false, ◌++◌, ℕ, ◌≤◌, ◌<◌, eqb, length, get_or, set, take, drop, replicate};

use states::{Block, State};

// The block of each state.
#[derive(Clone, Copy)]
pub struct BlockList {
    list: [u8; 256],
}

// A member of each block, which stands for it.
#[derive(Clone, Copy)]
pub struct NameList {
    list: [u8; 256],
}

// The block of each state, and how many blocks there are.
#[derive(Clone, Copy)]
pub struct Partition {
    pub blocks: BlockList,
    pub number: usize,
}

impl BlockList {
    pub fn of(&self, q: State) -> Block
        ensures { result.0 ≡ get_or self.now.list q.0 0 }
    {
        Block(self.list[q.0 as usize])
    }

    // The blocks of the first `states` states, one byte each, to the front of the room.
    pub fn put(&self, states: usize, room: &mut [u8])
        requires few { states ≤ 256 }
        requires room { states ≤ length room.old }
        ensures { room.new ≡ take states self.now.list ++ drop states room.old }
    {
        room[..states].copy_from_slice(&self.list[..states]);
    }
}

impl NameList {
    // State 0 for each block.
    pub fn new() -> NameList
        ensures { result.list ≡ replicate 256 0 }
    {
        NameList { list: [0; 256] }
    }

    pub fn of(&self, block: Block) -> State
        ensures { result.0 ≡ get_or self.now.list block.0 0 }
    {
        State(self.list[block.0 as usize])
    }

    pub fn set(&mut self, block: Block, q: State)
        ensures { self.new.list ≡ set self.old.list block.0 q.0 }
    {
        self.list[block.0 as usize] = q.0;
    }

    // Whether each state is the one that stands for its block.
    pub fn named(&self, blocks: &BlockList) -> [bool; 256]
        ensures { (q : ℕ) → q < 256 → get_or result q false ≡ eqb (get_or self.now.list (get_or blocks.now.list q 0) 0) q }
    {
        let mut named = [false; 256];
        for q in 0..256 {
            let block = blocks.list[q];
            let name = self.list[block as usize];
            named[q] = name as usize == q;
        }
        named
    }
}

// The numbers of states and of blocks both begin at 0. Two types keep one from passing for the other.

#![tactic(auto)]

// A state of a table, by its number.
#[derive(Clone, Copy)]
pub struct State(pub u8);

// A block of states, by its number.
#[derive(Clone, Copy)]
pub struct Block(pub u8);

// The blocks to start from, and the numbers to end with.

ghost use Rattle.std.specs.Prelude.{◌≤◌, ◌<◌};
ghost use Rattle.theory.specs.declared.Direction.TheVariants.{Forward as forward};
ghost use Rattle.partition.specs.Numbering.{Started, FirstAlike, FirstUsed};

use crate::{BlockList, Partition};
use states::State;
use theory::{Direction, IntoDirection};

// Backward one block, forward a block for each final weight.
pub fn start<D: IntoDirection>(direction: D, states: usize, finals: &[u32; 256]) -> Partition
    requires { states ≤ 256 }
    ensures { Started (D.side direction) states finals.now result.blocks.list result.number }
{
    let direction = direction.into_direction();
    let mut list = [0; 256];
    let mut number = 0;
    for q in 0..states {
        match first_alike(direction, q, finals) {
            Some(p) => list[q] = list[p],
            None => {
                list[q] = number as u8;
                number += 1;
            }
        }
    }
    let blocks = BlockList { list };
    Partition { blocks, number }
}

// The first of the states before q that may share its block, if there is one.
fn first_alike(direction: Direction, q: usize, finals: &[u32; 256]) -> Option<usize>
    requires { q < 256 }
    ensures { FirstAlike direction finals.now q result }
{
    match direction {
        Direction::Backward => (0 < q).then_some(0),
        Direction::Forward => first_equal(q, finals),
    }
}

// The first of the states before q with its final weight, if there is one.
fn first_equal(q: usize, finals: &[u32; 256]) -> Option<usize>
    requires { q < 256 }
    ensures { FirstAlike forward finals.now q result }
{
    for p in 0..q {
        if finals[p] == finals[q] {
            return Some(p);
        }
    }
    None
}

// The same blocks, numbered by first use. The first member met stands for its block.
pub fn by_first_use(states: usize, found: &BlockList) -> Partition
    requires { states ≤ 256 }
    ensures { FirstUsed states found.now.list result.blocks.list result.number }
{
    let mut list = [0; 256];
    let mut names: [Option<State>; 256] = [None; 256];
    let mut number = 0;
    for q in 0..states {
        let block = found.list[q] as usize;
        if let Some(first) = names[block] {
            list[q] = list[first.0 as usize];
        } else {
            names[block] = Some(State(q as u8));
            list[q] = number as u8;
            number += 1;
        }
    }
    let blocks = BlockList { list };
    Partition { blocks, number }
}

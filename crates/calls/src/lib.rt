// The calls on tables: check, rewrite, pick. No caller is trusted to have looked at a table before.

#![tactic(auto)]

ghost use Rattle.std.specs.Prelude.{◌≡◌};
ghost use Rattle.format.specs.Read.{table_read};
ghost use Rattle.calls.specs.Answers.{Checks, Rewrites};
ghost use Rattle.calls.specs.Picking.{size_of, picked, piece_of, picked_piece, PickAnswers};

use answers::{Answer, Refusal};

// Whether the bytes are a table: done with its number of states.
pub fn check(table: &[u8]) -> Answer
    ensures { Checks table.now result }
{
    Ok(tables::read(table)?.states)
}

// A read table written again, into the room: done with its length.
pub fn rewrite(table: &[u8], room: &mut [u8]) -> Answer
    ensures { Rewrites table.now room.old result room.new }
{
    let record = tables::read(table)?;
    // an accepted table's one written form is the table itself
    let needed = table.len();
    if room.len() < needed {
        return Err(Refusal::RoomTooShort(needed));
    }
    Ok(writer::write(&record, room))
}

// What counts for a pick: first the states, then the transitions.
#[derive(Clone, Copy, Debug, PartialEq, Eq, PartialOrd, Ord)]
pub struct Size {
    pub states: usize,
    pub transitions: usize,
}

fn size_of(table: &[u8]) -> Result<Size, Refusal>
    ensures { result ≡ size_of (table_read table.now) }
{
    let record = tables::read(table)?;
    Ok(Size {
        states: record.states,
        transitions: record.count,
    })
}

// One of the two tables of a pick.
#[derive(Clone, Copy, Debug, PartialEq, Eq)]
pub enum Which {
    First,
    Second,
}

// Which of two tables is picked, or which is refused and why: the smaller is picked, on a tie the first.
fn compare(first: &[u8], second: &[u8]) -> Result<Which, (Which, Refusal)>
    ensures { result ≡ picked first.now second.now }
{
    let a = size_of(first).map_err(|refusal| (Which::First, refusal))?;
    let b = size_of(second).map_err(|refusal| (Which::Second, refusal))?;
    if b < a {
        return Ok(Which::Second);
    }
    Ok(Which::First)
}

// The picked table, handed back as that same piece of memory; an empty piece at the start of the first on refusal.
pub fn pick<'a>(first: &'a [u8], second: &'a [u8]) -> &'a [u8]
    ensures { piece_of result ≡ picked_piece (picked first.now second.now) first.entry second.entry }
{
    match compare(first, second) {
        Ok(Which::First) => first,
        Ok(Which::Second) => second,
        Err(_) => &first[..0],
    }
}

// The code and the figure of a pick: numbers, as document 01 has them come from a second call.
#[derive(Clone, Copy, Debug, PartialEq, Eq)]
pub struct PickAnswer {
    pub code: u32,
    pub figure: usize,
}

pub fn pick_answer(first: &[u8], second: &[u8]) -> PickAnswer
    ensures { PickAnswers first.now second.now result }
{
    match compare(first, second) {
        Ok(Which::First) => PickAnswer {
            code: 0,
            figure: first.len(),
        },
        Ok(Which::Second) => PickAnswer {
            code: 0,
            figure: second.len(),
        },
        Err((Which::First, refusal)) => PickAnswer {
            code: refusal.code(),
            figure: refusal.figure(),
        },
        Err((Which::Second, refusal)) => PickAnswer {
            code: 100 + refusal.code(),
            figure: refusal.figure(),
        },
    }
}

// What a call answers: done with a figure, or refused with one of the numbers of documents 01 and 02 and its figure.

#![tactic(auto)]

ghost use Rattle.std.specs.Prelude.{◌≡◌, ◌+◌, ◌*◌, ◌<◌, ◌^◌};
ghost use Rattle.answers.specs.Numbers.{code_of, refusal_figure, answer_figure, packed};

use std::fmt;

// Why an input is refused, one case for each line of 01's table and each number of 02, with its figure.
#[derive(Clone, Copy, Debug, PartialEq, Eq)]
pub enum Refusal {
    // the table ends where a byte of a number is due
    TableEnds(usize),
    // a number's last byte, after its first, is 0
    PaddedNumber(usize),
    // arithmetic, number of states, of symbols or of transitions, or a rank, outside its range
    OutOfRange(usize),
    // a transition's symbol or state is not in the table
    NotInTable(usize),
    // a transition's code is 0
    ZeroCode(usize),
    // a transition is not above the one before
    NotAbove(usize),
    // bytes follow the last transition
    TableGoesOn(usize),
    // the tree ends while a node is due
    TreeEnds(usize),
    // a node's symbol is not in the table
    UnknownSymbol(usize),
    // bytes follow a finished tree
    TreeGoesOn(usize),
    // a node is due and there is a byte at offset 4,096
    TreeTooLong,
    // the lent room is too short
    RoomTooShort(usize),
    // the direction is above 1
    NoDirection,
    // a number's fifth byte is 16 or more
    LargeNumber(usize),
}

// The answer of a call that gives back a figure alone.
pub type Answer = Result<usize, Refusal>;

impl Refusal {
    // The number for a refusal.
    pub fn code(self) -> u32
        ensures { result ≡ code_of self }
    {
        match self {
            Refusal::TableEnds(_) => 1,
            Refusal::PaddedNumber(_) => 2,
            Refusal::OutOfRange(_) => 3,
            Refusal::NotInTable(_) => 4,
            Refusal::ZeroCode(_) => 5,
            Refusal::NotAbove(_) => 6,
            Refusal::TableGoesOn(_) => 7,
            Refusal::TreeEnds(_) => 8,
            Refusal::UnknownSymbol(_) => 9,
            Refusal::TreeGoesOn(_) => 10,
            Refusal::TreeTooLong => 11,
            Refusal::RoomTooShort(_) => 12,
            Refusal::NoDirection => 13,
            Refusal::LargeNumber(_) => 19,
        }
    }

    // The figure that goes with it.
    pub fn figure(self) -> usize
        ensures { result ≡ refusal_figure self }
    {
        match self {
            Refusal::TableEnds(at)
            | Refusal::PaddedNumber(at)
            | Refusal::OutOfRange(at)
            | Refusal::NotInTable(at)
            | Refusal::ZeroCode(at)
            | Refusal::NotAbove(at)
            | Refusal::TableGoesOn(at)
            | Refusal::TreeEnds(at)
            | Refusal::UnknownSymbol(at)
            | Refusal::TreeGoesOn(at)
            | Refusal::LargeNumber(at) => at,
            Refusal::TreeTooLong => 4096,
            Refusal::RoomTooShort(needed) => needed,
            Refusal::NoDirection => 0,
        }
    }
}

// As the program `inspect` prints it.
impl fmt::Display for Refusal {
    ghost use Rattle.std.specs.Prelude.{Some};
    ghost use Rattle.answers.specs.Numbers.{refusal_text};

    ghost output = { λ refusal. Some (refusal_text refusal) };

    fn fmt<W: fmt::Write>(&self, f: &mut fmt::Formatter<W>) -> fmt::Result {
        write!(f, "{} at {}", self.code(), self.figure())
    }
}

// Code times 2^32 plus figure, as the C calls give an answer back.
pub fn pack(answer: Answer) -> u64
    requires { answer_figure answer < 2 ^ 32 }
    ensures { result ≡ packed answer }
{
    match answer {
        Ok(figure) => figure as u64,
        Err(refusal) => (refusal.code() as u64) * 4294967296 + (refusal.figure() as u64),
    }
}

// Numbers as bytes: groups of seven bits, lowest first, the top bit set on every byte but the last.

#![tactic(auto)]

ghost use Rattle.std.specs.Prelude.{◌≡◌, ◌+◌, ◌<◌, length};
ghost use Rattle.numbers.specs.Read.{number_at, with_lowest, more_from};

use answers::Refusal;

// A place in a table.
#[derive(Clone, Copy, Debug, PartialEq, Eq)]
pub struct Cursor {
    pub at: usize,
}

impl Cursor {
    // The number at this place, with the next place. Most numbers are one byte.
    pub fn number(self, table: &[u8]) -> Result<(u32, Cursor), Refusal>
        ensures { result ≡ number_at table.now self.at }
    {
        let at = self.at;
        if table.len() <= at {
            return Err(Refusal::TableEnds(table.len()));
        }
        let byte = table[at] as u32;
        if byte < 128 {
            return Ok((byte, Cursor { at: at + 1 }));
        }
        long_number(table, at, byte - 128)
    }
}

// What a one counts in the fifth byte: 2^28.
const FIFTH_UNIT: u32 = 268435456;

// In the fifth byte only four bits are left of 32.
const FIFTH_LIMIT: u32 = 16;

// The rest of a number whose first byte, at `first`, gave `low` and says that more bytes follow.
fn long_number(table: &[u8], first: usize, low: u32) -> Result<(u32, Cursor), Refusal>
    requires few { low < 128 }
    requires inside { first < length table.now }
    ensures { result ≡ with_lowest low (more_from 3 table.now first (first + 1)) }
{
    let mut value = low;
    // what a one counts in the group that is read next
    let mut unit = 128;
    for at in first + 1..table.len() {
        let byte = table[at] as u32;
        if byte == 0 {
            return Err(Refusal::PaddedNumber(first));
        }
        if unit == FIFTH_UNIT && FIFTH_LIMIT <= byte {
            return Err(Refusal::LargeNumber(first));
        }
        if byte < 128 {
            return Ok((value + unit * byte, Cursor { at: at + 1 }));
        }
        value += unit * (byte - 128);
        unit *= 128;
    }
    Err(Refusal::TableEnds(table.len()))
}

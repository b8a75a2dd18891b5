// Tables in memory: the record, and the reader that makes one of bytes.

#![tactic(auto)]

ghost use Rattle.std.specs.Prelude.{◌≡◌, ◌≤◌, ◌<◌, [], length, get_or, take, OnOk};
ghost use Rattle.format.specs.Read.{any, as_found, within, one_of, listed, many, transition_at, transitions_at, table_read};
ghost use Rattle.model.specs.Table.{lower, key};
ghost use Rattle.tables.specs.Record.{row_at, rows_from};
ghost use Rattle.tables.specs.Rows.{RowIn, columns_of, key_below};
ghost use Rattle.tables.specs.Steps.{Finds, Small, Kept, HeadKept, HeadIs, ReadAll, arithmetic_found, ReadingIs};

use answers::Refusal;
use numbers::Cursor;
use theory::Arithmetic;

// A table in memory. Of each array the first places count: as many as there are symbols, states or transitions. Columns, and not an array
// of transitions: one of those would pad ten bytes to twelve, in each record that stands on the stack.
#[derive(Clone, Copy)]
pub struct TableRecord {
    pub arithmetic: Arithmetic,
    pub states: usize,
    pub symbols: usize,
    pub count: usize,
    pub ranks: [u8; 128],
    pub finals: [u32; 256],
    pub symbol: [u8; 4000],
    // the children of transition j stand from 4 * j on
    pub children: [u8; 16000],
    pub target: [u8; 4000],
    pub code: [u32; 4000],
}

// Three tests of a number: that it lies in a range, is below a limit, is not 0. They stay three functions since each has a refusal of its
// own and promises, in its own word of the definition, which numbers pass. One function would be given the test and the refusal, and could
// promise only that these were used.

// A number from `low` to `high`.
fn number_within(bytes: &[u8], place: Cursor, low: u32, high: u32) -> Result<(u32, Cursor), Refusal>
    ensures { as_found result ≡ within bytes.now low high place.at }
{
    let (n, next) = place.number(bytes)?;
    if n < low || high < n {
        return Err(Refusal::OutOfRange(place.at));
    }
    Ok((n, next))
}

// The arithmetic, by its number.
fn read_arithmetic(bytes: &[u8], place: Cursor) -> Result<(Arithmetic, Cursor), Refusal>
    ensures { arithmetic_found result ≡ within bytes.now 0 1 place.at }
{
    let (n, next) = place.number(bytes)?;
    let arithmetic = Arithmetic::try_from(n).map_err(|_| Refusal::OutOfRange(place.at))?;
    Ok((arithmetic, next))
}

// The number of one of `limit` symbols or states.
fn number_of(bytes: &[u8], place: Cursor, limit: usize) -> Result<(u8, Cursor), Refusal>
    requires { limit ≤ 256 }
    ensures { as_found result ≡ one_of bytes.now limit place.at }
{
    let (n, next) = place.number(bytes)?;
    if limit <= n as usize {
        return Err(Refusal::NotInTable(place.at));
    }
    Ok((n as u8, next))
}

// The code of a listed weight.
fn listed_code(bytes: &[u8], place: Cursor) -> Result<(u32, Cursor), Refusal>
    ensures { as_found result ≡ listed bytes.now place.at }
{
    let (n, next) = place.number(bytes)?;
    if n == 0 {
        return Err(Refusal::ZeroCode(place.at));
    }
    Ok((n, next))
}

// The rank of a symbol.
fn read_rank(bytes: &[u8], place: Cursor) -> Result<(u8, Cursor), Refusal>
    ensures { as_found result ≡ within bytes.now 0 4 place.at }
{
    let (rank, next) = number_within(bytes, place, 0, 4)?;
    Ok((rank as u8, next))
}

// One after another, each read by `item`, until the slice is full.
fn read_all<T: Copy, F: Fn(Cursor) -> Result<(T, Cursor), Refusal>>(
    place: Cursor,
    slice: &mut [T],
    item: F,
) -> Result<Cursor, Refusal>
    requires { F.IsAlwaysCallable item }
    ensures { ReadAll (F.post item) slice.new place result }
{
    let mut next = place;
    for slot in slice {
        let (value, behind) = item(next)?;
        *slot = value;
        next = behind;
    }
    Ok(next)
}

// Whether transition j is above the one before it: by symbol, then children left to right, then target. The numbers are compared where they
// stand, up to the first that differs.
fn ascends(table: &TableRecord, j: usize) -> bool
    requires row { j < 4000 }
    requires known { get_or table.now.symbol j 0 < 128 }
    requires small { Small table.now.ranks }
    ensures { result ≡ lower (key_below (columns_of table.now) j) (key (row_at (columns_of table.now) j)) }
{
    if j == 0 {
        return true;
    }
    let i = j - 1;
    let before = table.symbol[i];
    let here = table.symbol[j];
    if before != here {
        return before < here;
    }
    for (above, child) in table.children_of(i).iter().zip(table.children_of(j)) {
        if above != child {
            return above < child;
        }
    }
    table.target[i] < table.target[j]
}

// Transition j: symbol, children, target, code.
fn read_transition(
    bytes: &[u8],
    place: Cursor,
    j: usize,
    table: &mut TableRecord,
) -> Result<Cursor, Refusal>
    requires states { table.old.states ≤ 256 }
    requires symbols { table.old.symbols ≤ 128 }
    requires row { j < 4000 }
    requires small { Small table.old.ranks }
    ensures head { HeadKept table.old table.new }
    ensures kept { Kept j (columns_of table.old) (columns_of table.new) }
    ensures known { OnOk result (get_or table.new.symbol j 0 < 128) }
    ensures finds { Finds (transition_at bytes.now (take table.old.symbols table.old.ranks) table.old.states place.at) (row_at (columns_of table.new) j) result }
{
    let (symbol, next) = number_of(bytes, place, table.symbols)?;
    table.symbol[j] = symbol;
    let rank = table.ranks[symbol as usize] as usize;
    let from = j * 4;
    let states = table.states;
    let children = &mut table.children[from..from + rank];
    let next = read_all(next, children, |at| number_of(bytes, at, states))?;
    let (target, next) = number_of(bytes, next, states)?;
    table.target[j] = target;
    let (code, next) = listed_code(bytes, next)?;
    table.code[j] = code;
    Ok(next)
}

// The transitions, each above the one before.
fn read_transitions(bytes: &[u8], place: Cursor, table: &mut TableRecord) -> Result<Cursor, Refusal>
    requires states { table.old.states ≤ 256 }
    requires symbols { table.old.symbols ≤ 128 }
    requires count { table.old.count ≤ 4000 }
    requires small { Small table.old.ranks }
    ensures head { HeadKept table.old table.new }
    ensures finds { Finds (transitions_at bytes.now (take table.old.symbols table.old.ranks) table.old.states table.old.count [] place.at) (rows_from (columns_of table.new) 0 table.old.count) result }
{
    let mut next = place;
    for j in 0..table.count {
        let first = next;
        next = read_transition(bytes, first, j, table)?;
        if !ascends(table, j) {
            return Err(Refusal::NotAbove(first.at));
        }
    }
    Ok(next)
}

// All that stands before the transitions: arithmetic, numbers, ranks and final codes.
fn read_head(bytes: &[u8], table: &mut TableRecord) -> Result<Cursor, Refusal>
    requires { Small table.old.ranks }
    ensures small { OnOk result (Small table.new.ranks) }
    ensures head { HeadIs bytes.now table.new result }
{
    let (arithmetic, next) = read_arithmetic(bytes, Cursor { at: 0 })?;
    let (states, next) = number_within(bytes, next, 1, 256)?;
    let (symbols, next) = number_within(bytes, next, 1, 128)?;
    table.arithmetic = arithmetic;
    table.states = states as usize;
    table.symbols = symbols as usize;
    let next = read_all(
        next,
        &mut table.ranks[..table.symbols],
        |at| read_rank(bytes, at),
    )?;
    let next = read_all(
        next,
        &mut table.finals[..table.states],
        |at| at.number(bytes),
    )?;
    let (count, next) = number_within(bytes, next, 0, 4000)?;
    table.count = count as usize;
    Ok(next)
}

// A table read from bytes.
pub fn read(bytes: &[u8]) -> Result<TableRecord, Refusal>
    ensures { ReadingIs (table_read bytes.now) result }
{
    let mut table = TableRecord {
        arithmetic: Arithmetic::Modular,
        states: 0,
        symbols: 0,
        count: 0,
        ranks: [0; 128],
        finals: [0; 256],
        symbol: [0; 4000],
        children: [0; 16000],
        target: [0; 4000],
        code: [0; 4000],
    };
    let next = read_head(bytes, &mut table)?;
    let end = read_transitions(bytes, next, &mut table)?;
    if end.at < bytes.len() {
        return Err(Refusal::TableGoesOn(end.at));
    }
    Ok(table)
}

impl TableRecord {
    // The children of transition j.
    pub fn children_of(&self, j: usize) -> &[u8]
        requires { RowIn self.now j }
        ensures own { result.now ≡ (row_at (columns_of self.now) j).children }
        ensures as_many { length result.now ≡ get_or self.now.ranks (get_or self.now.symbol j 0) 0 }
        ensures few { length result.now ≤ 4 }
    {
        let rank = self.ranks[self.symbol[j] as usize] as usize;
        &self.children[j * 4..j * 4 + rank]
    }
}

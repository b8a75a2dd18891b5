// A table collapsed by given blocks. One named member stands for each block; the transitions between named members are added up by
// the keys of their blocks.

#![tactic(auto)]

ghost use Rattle.std.specs.Prelude.{◌≡◌, false, ℕ, ◌≤◌, ◌<◌, length, get_or};
ghost use Rattle.std.specs.List.{list_all};
ghost use Rattle.theory.specs.Arithmetic.{arithmetic_number, code_of};
ghost use Rattle.theory.specs.Blocks.{block_of};
ghost use Rattle.theory.specs.Entry.{block_key};
ghost use Rattle.tables.specs.Record.{table_of};
ghost use Rattle.tables.specs.Steps.{HeadKept};
ghost use Rattle.adding.specs.Keys.{digits, pack};
ghost use Rattle.adding.specs.Named.{name_of, Greatest, NamedBy, counted};
ghost use Rattle.adding.specs.Finals.{final_in, finals_added_in};
ghost use Rattle.adding.specs.Rows.{KeyKnown};
ghost use Rattle.tables.specs.Rows.{RowIn};
ghost use Rattle.adding.specs.Tables.{RowsIn, row_in, entry_in, first_entries, GatheredIn, RowPutIn, UnpackedIn, table_from_entries};
ghost use Rattle.adding.specs.Collapsing.{Collapsible, CollapsedTo};

use partition::{BlockList, NameList};
use profiles::{Entries, Region, SYMBOL};
use states::{Block, State};
use tables::TableRecord;
use theory::{Direction, IntoDirection};

// The table collapsed by its blocks, of which there are `number`. The entries are lent to work in.
pub fn add_up<D: IntoDirection>(
    direction: D,
    table: &TableRecord,
    blocks: &BlockList,
    number: usize,
    entries: &mut Entries,
) -> TableRecord
    requires { Collapsible (D.side direction) table.now blocks.now.list number }
    ensures { CollapsedTo (D.side direction) table.now blocks.now.list result }
{
    let direction = direction.into_direction();
    let names = name_members(table.states, blocks);
    let finals = final_codes(direction, table, number, blocks, &names);
    let many = gather(direction, table, blocks, &names, entries);
    let region = Region { lo: 0, hi: many };
    let end = entries.sum_up(table.arithmetic, region);
    table_with(table, number, end, finals, entries)
}

// The table with this number of states, these final codes and the first `count` entries as its transitions.
fn table_with(
    table: &TableRecord,
    states: usize,
    count: usize,
    finals: [u32; 256],
    entries: &Entries,
) -> TableRecord
    requires few { count ≤ 4000 }
    requires known { (i : ℕ) → i < count → KeyKnown table.now.ranks (get_or entries.now.keys i 0) }
    ensures table { table_of result ≡ table_from_entries table.now states finals (first_entries entries.now count) }
    ensures symbols { result.symbols ≡ table.now.symbols }
{
    let mut next = TableRecord {
        arithmetic: table.arithmetic,
        states,
        symbols: table.symbols,
        count,
        ranks: table.ranks,
        finals,
        symbol: [0; 4000],
        children: [0; 16000],
        target: [0; 4000],
        code: [0; 4000],
    };
    unpack_all(entries, &mut next);
    next
}

// Names the greatest member of each block.
fn name_members(states: usize, blocks: &BlockList) -> NameList
    requires { states ≤ 256 }
    ensures { Greatest (block_of blocks.now.list) states result.list }
{
    let mut names = NameList::new();
    for q in 0..states {
        let own = State(q as u8);
        names.set(blocks.of(own), own);
    }
    names
}

// The final code of each block.
fn final_codes(
    direction: Direction,
    table: &TableRecord,
    number: usize,
    blocks: &BlockList,
    names: &NameList,
) -> [u32; 256]
    requires states { table.now.states ≤ 256 }
    requires blocks { number ≤ 256 }
    ensures { (D : ℕ) → D < number → get_or result D 0 ≡ final_in direction table.now (block_of blocks.now.list) (name_of names.now.list) D }
{
    match direction {
        Direction::Backward => add_finals(table, blocks),
        Direction::Forward => named_finals(table, number, names),
    }
}

// Backward: the sum over a block's members.
fn add_finals(table: &TableRecord, blocks: &BlockList) -> [u32; 256]
    requires { table.now.states ≤ 256 }
    ensures { (D : ℕ) → D < 256 → get_or result D 0 ≡ code_of (arithmetic_number table.now.arithmetic) (finals_added_in table.now (block_of blocks.now.list) D) }
{
    let mut sums = [0; 256];
    for q in 0..table.states {
        let at = blocks.of(State(q as u8)).0 as usize;
        sums[at] = arith::sum_of_codes(table.arithmetic, sums[at], table.finals[q]);
    }
    sums
}

// Forward: the named member's.
fn named_finals(table: &TableRecord, number: usize, names: &NameList) -> [u32; 256]
    requires { number ≤ 256 }
    ensures { (D : ℕ) → D < number → get_or result D 0 ≡ get_or table.now.finals (name_of names.now.list D) 0 }
{
    let mut codes = [0; 256];
    for block in 0..number {
        let q = names.of(Block(block as u8));
        codes[block] = table.finals[q.0 as usize];
    }
    codes
}

// Whether these states are all named. (Each is below 256, as its type says: the caller's proof has it from here.)
fn are_named(states: &[u8], named: &[bool; 256]) -> bool
    ensures flags { result ≡ list_all (λ q. get_or named.now q false) states.now }
    ensures bytes { (i : ℕ) → get_or states.now i 0 < 256 }
{
    states.iter().all(|q| named[*q as usize])
}

// Whether transition j counts: backward its target is named, forward its children are.
fn counts(direction: Direction, table: &TableRecord, j: usize, named: &[bool; 256]) -> bool
    requires { RowIn table.now j }
    ensures { (b n : ℕ → ℕ) → NamedBy b n named.now → result ≡ counted b n direction (row_in table.now j) }
{
    match direction {
        Direction::Backward => named[table.target[j] as usize],
        Direction::Forward => are_named(table.children_of(j), named),
    }
}

// The key of transition j's blocks, as one number: the symbol, the children's blocks, the target's block. (The backward keys of
// `grouping` are packed by the same loop: one function for both belongs below both crates, docs/DESIGN-PASS.md.)
fn key_of(table: &TableRecord, j: usize, blocks: &BlockList) -> u64
    requires { RowIn table.now j }
    ensures { result ≡ pack (block_key (block_of blocks.now.list) (row_in table.now j)) }
{
    let mut packed: u64 = 0;
    for child in table.children_of(j) {
        packed = packed * 256 + blocks.of(State(*child)).0 as u64;
    }
    table.symbol[j] as u64 * SYMBOL + (packed * 256 + blocks.of(State(table.target[j])).0 as u64)
}

// An entry for each transition that counts. Answers how many there are.
fn gather(
    direction: Direction,
    table: &TableRecord,
    blocks: &BlockList,
    names: &NameList,
    entries: &mut Entries,
) -> usize
    requires { RowsIn table.now }
    ensures { GatheredIn direction table.now (block_of blocks.now.list) (name_of names.now.list) entries.new result }
{
    let named = names.named(blocks);
    let mut many = 0;
    for j in 0..table.count {
        if counts(direction, table, j, &named) {
            entries.keys[many] = key_of(table, j, blocks);
            entries.codes[many] = table.code[j];
            many += 1;
        }
    }
    many
}

// The last numbers of eight bits, as children.
fn unpack_children(packed: u64, children: &mut [u8])
    ensures { children.new ≡ digits (length children.old) packed }
{
    let mut rest = packed;
    for k in (0..children.len()).rev() {
        children[k] = (rest % 256) as u8;
        rest /= 256;
    }
}

// An entry as transition i.
fn unpack(i: usize, key: u64, weight: u32, next: &mut TableRecord)
    requires inside { i < 4000 }
    requires known { KeyKnown next.old.ranks key }
    ensures put { RowPutIn i (entry_in next.old key weight) next.old next.new }
    ensures head { HeadKept next.old next.new }
{
    let symbol = key / SYMBOL;
    let rank = next.ranks[symbol as usize] as usize;
    next.symbol[i] = symbol as u8;
    unpack_children(key / 256, &mut next.children[4 * i..4 * i + rank]);
    next.target[i] = (key % 256) as u8;
    next.code[i] = weight;
}

// The first entries as the transitions of the table.
fn unpack_all(entries: &Entries, next: &mut TableRecord)
    requires few { next.old.count ≤ 4000 }
    requires known { (i : ℕ) → i < next.old.count → KeyKnown next.old.ranks (get_or entries.now.keys i 0) }
    ensures unpacked { UnpackedIn next.new (first_entries entries.now next.old.count) }
    ensures head { HeadKept next.old next.new }
{
    for i in 0..next.count {
        unpack(i, entries.keys[i], entries.codes[i], next);
    }
}

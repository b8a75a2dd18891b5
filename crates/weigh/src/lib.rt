// Weighing a tree: the weight of each node's subtree at each state, and of the whole tree.

#![tactic(auto)]

ghost use Rattle.std.specs.Prelude.{◌≡◌, ℕ, ◌+◌, ◌*◌, ◌≤◌, ◌<◌, pos, length, get_or};
ghost use Rattle.theory.specs.Arithmetic.{arithmetic_number, arithmetic as semiring, meaning};
ghost use Rattle.tables.specs.Record.{table_of};
ghost use Rattle.arith.specs.Numbers.{number_of};
ghost use Rattle.weigh.specs.Asked.{asked_by, answered, filled};
ghost use Rattle.weigh.specs.Promise.{weight_beside, weight_given, Weighed};
ghost use Rattle.weigh.specs.Numbers.{StandsFor, Good};
ghost use Rattle.weigh.specs.Index.{Begins, Rising};
ghost use Rattle.weigh.specs.Rows.{sources_of, row_product, sum_into, final_sum, Ready, Added, RowReady};
ghost use Rattle.weigh.specs.Steps.{Replaced, Held, Weighable, Summed};

mod rows;

use answers::Refusal;
use rows::Row;
use tables::TableRecord;

// The number of a tree's nodes, and its weight.
#[derive(Clone, Copy, Debug, PartialEq, Eq)]
pub struct Weighing {
    pub nodes: usize,
    pub weight: i64,
}

impl Weighing {
    // The weight beside an answer, as document 01 has it: a refused weighing has weight 0.
    pub fn weight_beside(answer: Result<Weighing, Refusal>) -> i64
        ensures { result ≡ weight_beside answer }
    {
        match answer {
            Ok(weighing) => weighing.weight,
            Err(_) => 0,
        }
    }

    // Whether there is a weight beside it: a refused weighing says that there is none.
    pub fn weight_given(answer: Result<Weighing, Refusal>) -> bool
        ensures { result ≡ weight_given answer }
    {
        answer.is_ok()
    }
}

// Weighs a tree by a table. Done, the sheet holds at node × n + state the weight of the node's subtree at that state. It takes some
// 160 KB of stack: the record and its copy, the transitions' numbers and the offsets.
pub fn weigh(table: &[u8], tree: &[u8], sheet: &mut [i64]) -> Result<Weighing, Refusal>
    ensures { Weighed table.now tree.now sheet.old result sheet.new }
{
    let t = tables::read(table)?;
    weigh_tree(&t, tree, sheet)
}

// Weighs a tree by a table that was read.
fn weigh_tree(t: &TableRecord, tree: &[u8], sheet: &mut [i64]) -> Result<Weighing, Refusal>
    requires { Held t.now }
    ensures answer { result ≡ answered (asked_by (table_of t.now) tree.now (length sheet.old)) }
    ensures sheet { sheet.new ≡ filled (asked_by (table_of t.now) tree.now (length sheet.old)) sheet.old }
{
    let nodes = trees::read_tree(&t.ranks[..t.symbols], tree)?;
    let needed = nodes * t.states;
    if sheet.len() < needed {
        return Err(Refusal::RoomTooShort(needed));
    }
    let weight = weigh_nodes(t, tree, sheet);
    Ok(Weighing { nodes, weight })
}

// Fills the rows from the last node to the first, and gives back the tree's weight. On the stack, from `top` on, are the offsets of the
// subtrees that have no parent yet.
#[tactic(auto, using(crate::proofs::Node::transitions_few, crate::proofs::Node::tree_few))]
fn weigh_nodes(t: &TableRecord, tree: &[u8], sheet: &mut [i64]) -> i64
    requires { Weighable t.now tree.now sheet.old }
    ensures { Summed (table_of t.now) tree.now sheet.old sheet.new result }
{
    let mut numbers = [0; 4000];
    decode(t, &mut numbers);
    let mut begins = [0; 129];
    index_symbols(t, &mut begins);
    let mut stack = [0; 4096];
    let mut top = stack.len();
    for at in (0..tree.len()).rev() {
        let row = Row::of(t, &begins, tree, at, top);
        let weigher = Weigher {
            table: t,
            numbers: &numbers,
            stack: &stack,
        };
        weigher.fill_row(row, sheet);
        top = top + row.rank - 1;
        stack[top] = at as u16;
    }
    root_weight(t, sheet)
}

// The numbers of the transitions' weights.
fn decode(t: &TableRecord, numbers: &mut [i64; 4000])
    requires { t.now.count ≤ 4000 }
    ensures { Replaced (pos 0) 0 t.now.count (λ j. StandsFor (arithmetic_number t.now.arithmetic) 1 (meaning (arithmetic_number t.now.arithmetic) (get_or t.now.code j 0))) numbers.old numbers.new }
{
    // over the index: behind `numbers.iter_mut().zip(..)` a proof knows nothing of the numbers
    for j in 0..t.count {
        numbers[j] = arith::number_of_code(t.arithmetic, t.code[j]);
    }
}

// Where the transitions of each symbol begin, and behind the last symbol where they end.
fn index_symbols(t: &TableRecord, begins: &mut [u16; 129])
    requires symbols_few { t.now.symbols ≤ 128 }
    requires few { t.now.count ≤ 4000 }
    requires rising { Rising t.now.symbol t.now.count }
    ensures { Replaced 0 0 (t.now.symbols + 1) (Begins t.now.symbol t.now.count) begins.old begins.new }
{
    let mut begin = 0;
    for s in 0..=t.symbols {
        begin = begin_of(t, s, begin);
        begins[s] = begin as u16;
    }
}

// The first transition from `from` on whose symbol is not below s.
fn begin_of(t: &TableRecord, s: usize, from: usize) -> usize
    requires few { t.now.count ≤ 4000 }
    requires rising { Rising t.now.symbol t.now.count }
    requires within { from ≤ t.now.count }
    requires below { (i : ℕ) → i < from → get_or t.now.symbol i 0 < s }
    ensures { Begins t.now.symbol t.now.count s result }
{
    // over the index: `position` would count from `from` on, and give an Option that the end has to be put in for
    for j in from..t.count {
        if s <= t.symbol[j] as usize {
            return j;
        }
    }
    t.count
}

// What a row is made of beside the sheet: the table, the numbers of its transitions' weights, and the offsets of the subtrees that have no
// parent yet.
#[derive(Clone, Copy)]
struct Weigher<'a> {
    table: &'a TableRecord,
    numbers: &'a [i64; 4000],
    stack: &'a [u16; 4096],
}

impl<'a> Weigher<'a> {
    // At each state of the row the sum over the transitions with that target.
    fn fill_row(self, row: Row, sheet: &mut [i64])
        requires ready { RowReady (arithmetic_number self.table.now.arithmetic) (sources_of self row sheet.old) self.table.now.target row }
        ensures { let t = self.entry.table.now in Replaced (pos 0) (row.at * t.states) t.states
            (λ q. StandsFor (arithmetic_number t.arithmetic) 16385 (sum_into (arithmetic_number t.arithmetic) (sources_of self.entry row sheet.old) t.target row.rank row.from row.to q)) sheet.old sheet.new }
    {
        clear_row(self.table, row.at, sheet);
        for j in row.from..row.to {
            self.add_transition(row, j, sheet);
        }
    }

    // Adds the product of transition j at its target.
    fn add_transition(self, row: Row, j: usize, sheet: &mut [i64])
        requires ready { Ready (arithmetic_number self.table.now.arithmetic) (sources_of self row sheet.old) row.rank j }
        requires inside { row.at * self.table.now.states + get_or self.table.now.target j 0 < length sheet.old }
        requires good { Good (arithmetic_number self.table.now.arithmetic) 16385 (get_or sheet.old (row.at * self.table.now.states + get_or self.table.now.target j 0) (pos 0)) }
        ensures { let t = self.entry.table.now in Added (arithmetic_number t.arithmetic) (sources_of self.entry row sheet.old) row.rank j (row.at * t.states + get_or t.target j 0) sheet.new }
    {
        let x = self.product_of(row, j, sheet);
        let place = row.at * self.table.states + self.table.target[j] as usize;
        sheet[place] = arith::sum(self.table.arithmetic, sheet[place], x);
    }

    // The weight of transition j times its children's weights.
    fn product_of(self, row: Row, j: usize, sheet: &[i64]) -> i64
        requires ready { Ready (arithmetic_number self.table.now.arithmetic) (sources_of self row sheet.now) row.rank j }
        ensures { let t = self.entry.table.now in StandsFor (arithmetic_number t.arithmetic) 16385 (row_product (arithmetic_number t.arithmetic) (sources_of self.entry row sheet.now) row.rank j) result }
    {
        let mut x = self.numbers[j];
        // over the index: for a zip the check asks for a name for each array and each part, and two ranges more are checked for each transition
        for k in 0..row.rank {
            let node = self.stack[row.top + k] as usize;
            let state = self.table.children[j * 4 + k] as usize;
            let weight = sheet[node * self.table.states + state];
            x = arith::product(self.table.arithmetic, x, weight);
        }
        x
    }
}

// The arithmetic's zero at each state of a row.
fn clear_row(t: &TableRecord, at: usize, sheet: &mut [i64])
    requires { at * t.now.states + t.now.states ≤ length sheet.old }
    ensures { Replaced (pos 0) (at * t.now.states) t.now.states (λ q. StandsFor (arithmetic_number t.now.arithmetic) 16385 (semiring (arithmetic_number t.now.arithmetic)).zero) sheet.old sheet.new }
{
    let zero = arith::number_of_code(t.arithmetic, 0);
    let begin = at * t.states;
    sheet[begin..begin + t.states].fill(zero);
}

// The sum over all states of final weight times weight at the root.
fn root_weight(t: &TableRecord, sheet: &[i64]) -> i64
    requires states_few { t.now.states ≤ 256 }
    requires room { t.now.states ≤ length sheet.now }
    requires good { (q : ℕ) → q < t.now.states → Good (arithmetic_number t.now.arithmetic) 4096 (get_or sheet.now q (pos 0)) }
    ensures { result ≡ number_of (arithmetic_number t.now.arithmetic) (final_sum (arithmetic_number t.now.arithmetic) t.now.states t.now.finals sheet.now) }
{
    let mut x = arith::number_of_code(t.arithmetic, 0);
    for (weight, ending) in sheet[..t.states].iter().zip(&t.finals) {
        let code = arith::number_of_code(t.arithmetic, *ending);
        x = arith::sum(t.arithmetic, x, arith::product(t.arithmetic, code, *weight));
    }
    x
}

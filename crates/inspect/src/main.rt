// Reads a table from standard input and says what it is, how its states fall into blocks and how small it collapses, or why it is
// refused.

#![tactic(auto)]

ghost use Rattle.std.specs.Prelude.{◌≡◌, ◌≤◌, length, IfOk};
ghost use Rattle.answers.specs.Numbers.{answer_figure};

use answers::Answer;
use collapse::Counted;
use std::io;
use std::io::Read;
use tables::TableRecord;

fn main(rt: HostRuntime) -> io::Result<()> {
    // no answer depends on later bytes: roundtrip's law `later_bytes`
    let mut input = [0u8; 65416];
    let length = read_full(&mut rt.reader(), &mut input)?;
    show(&rt, &input[..length])
}

// Reads until the buffer is full or the input ends: how many bytes it put at the start of the buffer. (The library reads on into a
// Vec, and there is no heap here; a read may give fewer bytes than there is room for, so the loop doesn't count one by one.)
fn read_full<R: Read>(input: &mut R, buffer: &mut [u8]) -> io::Result<usize>
    ensures { IfOk result (λ n. n ≤ length buffer.new) }
{
    let mut done = 0;
    while done < buffer.len() {
        let more = input.read(&mut buffer[done..])?;
        if more == 0 {
            break;
        }
        done += more;
    }
    Ok(done)
}

// The five lines of a table, or the one of a refusal. All calls read the same bytes and are lent the most room that is ever needed,
// so that none refuses what the first has taken.
#[tactic(auto, using(crate::proofs::Few::states_few))]
fn show(rt: &impl Print, table: &[u8]) -> io::Result<()> {
    match tables::read(table) {
        Ok(record) => {
            show_header(rt, &record)?;
            show_blocks(rt, "backward", 0, table, record.states)?;
            show_blocks(rt, "forward", 1, table, record.states)?;
            show_collapse(rt, "backward", 0, table)?;
            show_collapse(rt, "forward", 1, table)
        }
        Err(refusal) => println!(rt; "refused {refusal}"),
    }
}

fn show_header(rt: &impl Print, table: &TableRecord) -> io::Result<()> {
    let arithmetic = table.arithmetic.number();
    let states = table.states;
    let symbols = table.symbols;
    let transitions = table.count;
    println!(rt;
        "arithmetic {arithmetic} states {states} symbols {symbols} transitions {transitions}"
    )
}

// An answer's figure, also a refusal's, which cannot come here.
fn figure_of(answer: Answer) -> usize
    ensures { result ≡ answer_figure answer }
{
    answer.unwrap_or_else(|refusal| refusal.figure())
}

// The number of blocks, and the block of each state.
fn show_blocks(
    rt: &impl Print,
    name: &str,
    direction: u32,
    table: &[u8],
    states: usize,
) -> io::Result<()>
    requires { states ≤ 256 }
{
    let mut room = [0u8; 256];
    let number = figure_of(collapse::blocks(direction, table, &mut room));
    print!(rt; "{name} blocks {number} :")?;
    for block in &room[..states] {
        print!(rt; " {block}")?;
    }
    println!(rt; "")
}

// How long the collapsed table is, and how many transitions it has.
fn show_collapse(rt: &impl Print, name: &str, direction: u32, table: &[u8]) -> io::Result<()> {
    let mut room = [0u8; 65415];
    let collapsed = collapse::collapse(direction, table, &mut room);
    let length = figure_of(collapsed.map(|counted| counted.length));
    let (_, transitions) = Counted::counts_beside(collapsed);
    println!(rt; "{name} table {length} bytes {transitions} transitions")
}

// Writing: a number, and a table record, in the one written form.

#![tactic(auto)]

ghost use Rattle.std.specs.Prelude.{◌≡◌, ℕ, ◌+◌, ◌<◌, ◌≤◌, ◌^◌, List, [], ◌∷◌, ◌++◌, length};
ghost use Rattle.numbers.specs.Written.{written, written_all};
ghost use Rattle.format.specs.Written.{transition_numbers, table_numbers, bytes_of};
ghost use Rattle.tables.specs.Record.{row_at, table_of};
ghost use Rattle.tables.specs.Rows.{columns_of};
ghost use Rattle.writer.specs.Put.{Put};
ghost use Rattle.writer.specs.Sinks.{SinkLaws, RoomTook, RoomFits, room_laws, CountTook, CountFits, count_laws};
ghost use Rattle.writer.specs.Writable.{RowInside, Writable};

use tables::TableRecord;

// Where numbers go, one after another: into a room, or into a count of their bytes.
trait Sink {
    // the numbers went from the one state to the other
    ghost took: { Self → List ℕ → Self → Type 0 };

    // there is room for the numbers
    ghost fits: { Self → List ℕ → Type 0 };

    fn number(&mut self, number: u32)
        requires { fits self.old (number ∷ []) }
        ensures { took self.old (number ∷ []) self.new };

    // numbers taken one after another are all of them taken
    ghost laws: { SinkLaws took fits };
}

// A room with the place behind the bytes that stand in it.
#[derive(Drop)]
struct Room<'a> {
    bytes: &'a mut [u8],
    next: usize,
}

impl Sink for Room<'_> {
    ghost took = { RoomTook };

    ghost fits = { RoomFits };

    fn number(&mut self, number: u32) {
        self.next = put_number(self.bytes, self.next, number);
    }

    ghost laws = { room_laws };
}

// How many bytes the numbers need.
#[derive(Drop)]
struct Count {
    bytes: usize,
}

impl Sink for Count {
    ghost took = { CountTook };

    ghost fits = { CountFits };

    fn number(&mut self, number: u32) {
        self.bytes += length_of_number(number);
    }

    ghost laws = { count_laws };
}

// A number, in groups of seven bits; the place behind it is answered. The loop stays a `while`: it counts nothing, but divides until what is
// left fits seven bits.
fn put_number(room: &mut [u8], at: usize, number: u32) -> usize
    requires { at + length (written number) ≤ length room.old }
    ensures { Put room.old at (written number) room.new result }
{
    let mut place = at;
    let mut rest = number;
    while 128 <= rest {
        room[place] = (128 + rest % 128) as u8;
        rest = rest / 128;
        place += 1;
    }
    room[place] = rest as u8;
    place + 1
}

// How many bytes a number has in its written form.
#[tactic(auto, using(roundtrip::specs::Numbers::written_one, roundtrip::specs::Numbers::two_bytes, crate::proofs::Short::three_bytes, crate::proofs::Short::four_bytes, crate::proofs::Short::five_bytes))]
fn length_of_number(number: u32) -> usize
    ensures { result ≡ length (written number) }
{
    match number {
        ..128 => 1,
        ..16384 => 2,
        ..2097152 => 3,
        ..268435456 => 4,
        _ => 5,
    }
}

// Transition j: symbol, children, target, code.
fn put_transition<S: Sink>(table: &TableRecord, j: usize, sink: &mut S)
    requires inside { RowInside (columns_of table.now) j }
    requires fits { S.fits sink.old (transition_numbers (row_at (columns_of table.now) j)) }
    ensures { S.took sink.old (transition_numbers (row_at (columns_of table.now) j)) sink.new }
{
    let symbol = table.symbol[j];
    let rank = table.ranks[symbol as usize] as usize;
    sink.number(symbol as u32);
    // Two parts by hand: `children_of` asks for a rank of at most 4, this function only that the children stand inside the array.
    for child in &table.children[j * 4..][..rank] {
        sink.number(*child as u32);
    }
    sink.number(table.target[j] as u32);
    sink.number(table.code[j]);
}

// A table: arithmetic, the numbers of states and of symbols, the rank of each symbol, the final code of each state, the transitions.
fn put_table<S: Sink>(table: &TableRecord, sink: &mut S)
    requires writable { Writable table.now }
    requires fits { S.fits sink.old (table_numbers (table_of table.now)) }
    ensures { S.took sink.old (table_numbers (table_of table.now)) sink.new }
{
    sink.number(table.arithmetic.number());
    sink.number(table.states as u32);
    sink.number(table.symbols as u32);
    for rank in &table.ranks[..table.symbols] {
        sink.number(*rank as u32);
    }
    for code in &table.finals[..table.states] {
        sink.number(*code);
    }
    sink.number(table.count as u32);
    for j in 0..table.count {
        put_transition(table, j, sink);
    }
}

// A table record in its one written form; the length is answered.
pub fn write(table: &TableRecord, room: &mut [u8]) -> usize
    requires writable { Writable table.now }
    requires fits { length (bytes_of (table_of table.now)) ≤ length room.old }
    ensures { Put room.old 0 (bytes_of (table_of table.now)) room.new result }
{
    let mut sink = Room {
        bytes: room,
        next: 0,
    };
    put_table(table, &mut sink);
    sink.next
}

// How many bytes a table record has in its one written form.
pub fn length_of(table: &TableRecord) -> usize
    requires { Writable table.now }
    ensures { result ≡ length (bytes_of (table_of table.now)) }
{
    let mut count = Count { bytes: 0 };
    put_table(table, &mut count);
    count.bytes
}

// Tries pick, whose result, a piece of memory, cannot be handed to C. One line a pair of tables: the code, the figure and
// the length of the piece, and the piece's bytes summed, which tell the two tables apart.

#![tactic(auto)]

use std::io;

fn main(rt: HostRuntime) -> io::Result<()> {
    // document 01's table A, its backward collapse, and A with its last code changed
    let a =
        b"\x00\x03\x02\x00\x01\x00\x00\x01\x04\x00\x00\x03\x00\x01\x03\x01\x00\x02\x05\x01\x01\x02\x07";
    let collapsed = b"\x00\x02\x02\x00\x01\x00\x01\x02\x00\x00\x03\x01\x00\x01\x0c";
    let other =
        b"\x00\x03\x02\x00\x01\x00\x00\x01\x04\x00\x00\x03\x00\x01\x03\x01\x00\x02\x05\x01\x01\x02\x08";
    // A without its last transition, A with a state that is not in the table, and A's first bytes
    let shorter = b"\x00\x03\x02\x00\x01\x00\x00\x01\x03\x00\x00\x03\x00\x01\x03\x01\x00\x02\x05";
    let broken =
        b"\x00\x03\x02\x00\x01\x00\x00\x01\x04\x00\x00\x03\x00\x01\x03\x01\x00\x03\x05\x01\x01\x02\x07";
    let cut = b"\x00\x03\x02\x00\x01";
    // A's first byte padded, and an arithmetic that is too large
    let padded = b"\x80\x00\x03";
    let large = b"\xff\xff\xff\xff\x10";
    show(&rt, a, collapsed)?;
    show(&rt, collapsed, a)?;
    show(&rt, a, other)?;
    show(&rt, other, a)?;
    show(&rt, a, shorter)?;
    show(&rt, shorter, a)?;
    show(&rt, broken, a)?;
    show(&rt, a, broken)?;
    show(&rt, broken, cut)?;
    show(&rt, a, cut)?;
    show(&rt, a, b"")?;
    show(&rt, padded, large)?;
    show(&rt, large, padded)?;
    show(&rt, a, padded)?;
    show(&rt, a, large)
}

fn show<'a>(rt: &impl Print, first: &'a [u8], second: &'a [u8]) -> io::Result<()> {
    let piece = calls::pick(first, second);
    let answer = calls::pick_answer(first, second);
    let code = answer.code;
    let figure = answer.figure;
    let length = piece.len();
    let sum = piece
        .iter()
        .fold(0u32, |sum, byte| sum.wrapping_add(u32::from(*byte)));
    println!(rt; "code {code} figure {figure} piece {length} sum {sum}")
}

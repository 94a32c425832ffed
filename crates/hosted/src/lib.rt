// What the programs over the host side share: scripts that drive it, with the box or by itself, and printing what it answers.
//
// A script is one of `show`, with these steps beside. Numbers are words in hex; the bytes of a block are one word, and those that it
// leaves out are zero.
//     standard DESK CONTROL VALUES      a request of that kind is made, handed to the box, and its reply read; so is `advanced`
//     lines KIND DESK 22 K              block 7 and records are read so, and their lines written
//     room ROOM KIND DESK CONTROL ..    a request is made in a buffer with that room
//     hear REPLY KIND DESK CONTROL ..   a reply to a request is read
//     write ROOM BLOCK                  the line of a record is written in a buffer with that room
//     dump ROOM BLOCK                   the same, shown in hex
//     both ROOM BLOCK                   the lines of two records are written
#![tactic(auto)]

use read::rest;
use std::io;
use std::io::Input;

mod calls;
mod edge;
mod read;
mod tell;

// Does what a step of the host side says.
fn act(
    rt: &impl Print,
    letter: u8,
    text: &[u8],
    store: &mut [u8],
    out: &mut [u8],
) -> io::Result<()> {
    match letter {
        b'l' => calls::lines(rt, rest(text, 2), store, out),
        b'h' => edge::hear(rt, rest(text, 2)),
        b's' | b'a' => calls::call(rt, rest(text, 1), store, out),
        _ => edge::lend(rt, letter, rest(text, 2)),
    }
}

// Whether a step is one of the host side.
fn ours(letter: u8) -> bool {
    matches!(
        letter,
        b's' | b'a' | b'l' | b'r' | b'h' | b'w' | b'd' | b'b'
    )
}

// A step of a script.
fn step(rt: &impl Print, line: &[u8], store: &mut [u8], out: &mut [u8]) -> io::Result<()> {
    match show::letter(line) {
        Some(letter) if ours(letter) => {
            show::name(rt, line)?;
            act(rt, letter, show::told_of(line), store, out)?;
            print!(rt; "\n")
        }
        _ => show::step(rt, line, store, out),
    }
}

// All steps of the script that stands on standard input.
pub fn play_input(rt: &(impl Input + Print), store: &mut [u8], out: &mut [u8]) -> io::Result<()> {
    show::each_input_line(rt, |line| step(rt, line, store, out))
}

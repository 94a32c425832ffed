// What the programs over the box share: scripts that drive it, and printing what it answers as the listing does.
//
// A script has a step a line, behind a newline: a name that is printed, a colon, a word of which the first letter counts, and
// octets in hex (capitals; what is no digit is skipped). A line that begins with the colon prints nothing, and one without a
// colon is a remark.
//     fresh                         a fresh store
//     standard DESK CONTROL DATA    a request of that kind; so is `advanced`
//     octets FRAME                  a frame as it stands
//     uid DESK MASK UID             a sighting
//     many DESK N                   N sightings, of which those recorded are counted
//     tick                          100 ms pass
//     poke AT AT OCTET ..           octets of the store are written
#![tactic(auto)]

ghost use Rattle.std.specs.Prelude.{◌<◌, ◌≤◌, length, IfOk, IfSome};

use events::Answer;
use frame::{Kind, Refusal, Way};
use rules::Seen;
use std::io;
use std::io::{Input, Read};

// What a step of a script comes to.
#[derive(Clone, Copy, PartialEq, Eq)]
pub enum Said {
    Answer(Result<Answer, Refusal>),
    Count(u64),
}

// ---- octets

// Writes src from at on, where it fits.
pub fn place(s: &mut [u8], at: usize, src: &[u8]) {
    if at <= s.len() && src.len() <= s.len() - at {
        s[at..at + src.len()].copy_from_slice(src);
    }
}

// Writes one octet, where there is one.
fn poke(s: &mut [u8], at: usize, v: u8) {
    if let Some(octet) = s.get_mut(at) {
        *octet = v;
    }
}

// ---- printing

// Octets as they stand.
pub fn word(rt: &impl Print, text: &[u8]) -> io::Result<()> {
    rt.write_all(text)
}

pub fn hex(rt: &impl Print, s: &[u8]) -> io::Result<()> {
    for b in s {
        print!(rt; "{b:02X}")?;
    }
    Ok(())
}

// The first n octets of the output; of more than 20, the first 20 and how many there are.
fn reply(rt: &impl Print, out: &[u8], n: usize) -> io::Result<()> {
    let Some(sent) = out.get(..n) else {
        return print!(rt; "no reply");
    };
    if n <= 20 {
        return hex(rt, sent);
    }
    hex(rt, &sent[..20])?;
    print!(rt; " of {n}")
}

fn seen(rt: &impl Print, s: Seen) -> io::Result<()> {
    match s {
        Seen::Ignored(left) => print!(rt; "ignored {left}"),
        Seen::Lost => print!(rt; "lost"),
        Seen::Recorded => print!(rt; "recorded"),
    }
}

fn answer(rt: &impl Print, out: &[u8], a: Result<Answer, Refusal>) -> io::Result<()> {
    match a {
        Err(r) => print!(rt; "refused {}", r.number()),
        Ok(Answer::Reply(n)) => reply(rt, out, n),
        Ok(Answer::Sighted(s)) => seen(rt, s),
        Ok(Answer::Done) => print!(rt; "ok"),
    }
}

// What a step came to.
pub fn say(rt: &impl Print, out: &[u8], s: Option<Said>) -> io::Result<()> {
    match s {
        Some(Said::Answer(a)) => answer(rt, out, a),
        Some(Said::Count(n)) => print!(rt; "{n}"),
        None => print!(rt; "?"),
    }
}

// ---- reading a line

// Where a mark stands first; the length where it stands nowhere.
pub fn until(s: &[u8], mark: u8) -> usize
    ensures { result ≤ length s.now }
{
    s.iter().position(|c| *c == mark).unwrap_or(s.len())
}

// The number of a hex digit.
pub fn digit(c: u8) -> Option<u8>
    ensures { IfSome result (λ d. d < 16) }
{
    match c {
        b'0'..=b'9' => Some(c - b'0'),
        b'A'..=b'F' => Some(c - b'A' + 10),
        _ => None,
    }
}

// Writes the octets that the digits of a text make, as far as there is room, and says how many they are.
pub fn unhex(text: &[u8], to: &mut [u8]) -> usize {
    let mut n: usize = 0;
    for c in text {
        if let Some(d) = digit(*c) {
            if let Some(octet) = to.get_mut(n / 2) {
                *octet = *octet % 16 * 16 + d;
            }
            n += 1;
        }
    }
    n / 2
}

// ---- doing what it says

// Makes a request and hands it to the box.
fn ask(d: &[u8], kind: Kind, store: &mut [u8], out: &mut [u8]) -> Option<Said> {
    let [desk, control, data @ ..] = d else {
        return None;
    };
    let mut buf = [0u8; 64];
    place(&mut buf, Way::Request.data_at(kind), data);
    let n = seal::seal_request(&mut buf, kind, *desk, *control, data.len())?;
    let made = buf.get(..n)?;
    Some(Said::Answer(depot::frame(store, made, out)))
}

// Sights a tag.
fn sight(d: &[u8], store: &mut [u8]) -> Option<Said> {
    if d.len() < 10 {
        return None;
    }
    Some(Said::Answer(depot::sighting(store, d[0] as u64, octets::number::<8>(d, 2), d[1])))
}

// Sights n tags, whose UIDs are 256 times the desk's number and on, and says how many are recorded.
fn sight_many(store: &mut [u8], desk: u8, n: u8) -> u64 {
    let first = desk as u64 * 256;
    let mut count: u64 = 0;
    for i in 0..n as u64 {
        if let Ok(Answer::Sighted(Seen::Recorded)) = depot::sighting(
            store,
            desk as u64,
            first + i,
            1,
        ) {
            count += 1;
        }
    }
    count
}

// The same of a desk and a number of tags; of a number that is left out, none.
fn many(d: &[u8], store: &mut [u8]) -> u64 {
    match d {
        [desk, n, ..] => sight_many(store, *desk, *n),
        _ => 0,
    }
}

// Writes octets of the store: two octets say where, and one what.
fn pokes(d: &[u8], store: &mut [u8]) {
    for change in d.chunks_exact(3) {
        poke(store, octets::get16(change, 0) as usize, change[2]);
    }
}

// What needs no output. Here and in `hosted` a match on the letter of a step: what a table of closures would hold takes other arguments at
// each step.
fn event(letter: u8, d: &[u8], store: &mut [u8]) -> Option<Said> {
    match letter {
        b'f' => Some(Said::Answer(depot::fresh(store))),
        b'u' => sight(d, store),
        b'm' => Some(Said::Count(many(d, store))),
        b't' => Some(Said::Answer(depot::tick(store))),
        b'p' => {
            pokes(d, store);
            Some(Said::Answer(Ok(Answer::Done)))
        }
        _ => None,
    }
}

fn deed(letter: u8, d: &[u8], store: &mut [u8], out: &mut [u8]) -> Option<Said> {
    match letter {
        b's' => ask(d, Kind::Standard, store, out),
        b'a' => ask(d, Kind::Advanced, store, out),
        b'o' => Some(Said::Answer(depot::frame(store, d, out))),
        _ => event(letter, d, store),
    }
}

// What a line says to do, from its colon on.
pub fn told_of(line: &[u8]) -> &[u8] {
    &line[until(line, b':')..]
}

// The first letter of what a line says to do.
pub fn letter(line: &[u8]) -> Option<u8> {
    told_of(line).get(2).copied()
}

// Does what a line says.
pub fn act(line: &[u8], store: &mut [u8], out: &mut [u8]) -> Option<Said> {
    let mut d = [0u8; 24];
    let n = unhex(told_of(line), &mut d);
    deed(letter(line)?, d.get(..n)?, store, out)
}

// Prints the name of a line.
pub fn name(rt: &impl Print, line: &[u8]) -> io::Result<()> {
    word(rt, &line[..until(line, b':')])?;
    print!(rt; " ")
}

// A line with what a step came to, where it has a name.
fn tell(rt: &impl Print, line: &[u8], out: &[u8], s: Option<Said>) -> io::Result<()> {
    let at = until(line, b':');
    if at == 0 || at == line.len() {
        return Ok(());
    }
    name(rt, line)?;
    say(rt, out, s)?;
    print!(rt; "\n")
}

// A step of a script.
pub fn step(rt: &impl Print, line: &[u8], store: &mut [u8], out: &mut [u8]) -> io::Result<()> {
    let s = act(line, store, out);
    tell(rt, line, out, s)
}

// Does a step at each line of a script, behind the newline that it begins with.
pub fn each_line<F: FnMut(&[u8]) -> io::Result<()>>(script: &[u8], mut step: F) -> io::Result<()>
    requires { F.IsAlwaysCallable step }
{
    if let Some((_, lines)) = script.split_first() {
        for line in lines.split(|c| *c == b'\n') {
            step(line)?;
        }
    }
    Ok(())
}

// All steps of a script.
pub fn play(rt: &impl Print, script: &[u8], store: &mut [u8], out: &mut [u8]) -> io::Result<()> {
    each_line(script, |line| step(rt, line, store, out))
}

// The room for a script.
const SCRIPT: usize = 65536;

// Reads standard input to the start of a buffer, up to the end of either, and answers how many octets that are. No `for`: each read says how
// far it came.
pub fn input(rt: &impl Input, script: &mut [u8]) -> io::Result<usize>
    ensures { IfOk result (λ n. n ≤ length script.new) }
{
    let mut reader = rt.reader();
    let mut at: usize = 0;
    while at < script.len() {
        let n = reader.read(&mut script[at..])?;
        if n == 0 {
            break;
        }
        at += n;
    }
    Ok(at)
}

// Does a step at each line of the script that stands on standard input.
pub fn each_input_line<F: FnMut(&[u8]) -> io::Result<()>>(
    rt: &impl Input,
    step: F,
) -> io::Result<()>
    requires { F.IsAlwaysCallable step }
{
    let mut script = [0u8; SCRIPT];
    let n = input(rt, &mut script)?;
    each_line(&script[..n], step)
}

// All steps of the script that stands on standard input.
pub fn play_input(rt: &(impl Input + Print), store: &mut [u8], out: &mut [u8]) -> io::Result<()> {
    each_input_line(rt, |line| step(rt, line, store, out))
}

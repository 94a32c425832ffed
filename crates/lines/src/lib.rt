// Scan lines: the line of a record, as block 7 shapes it, in the rest of a lent output.
#![tactic(auto)]

ghost use Rattle.std.specs.Prelude.{◌≡◌, true, ◌*◌, ◌≤◌, length};
ghost use Rattle.octets.specs.Parts.{put};
ghost use Rattle.rules.specs.Line.{line};
ghost use Rattle.pieces.specs.Pieces.{width_of};
ghost use Rattle.typed.specs.Typed.{read_data};
ghost use Rattle.lines.specs.Lines.{Lined, records_in, lines_of, AllLined};

use frame::Refusal;
use pieces::Shape;
use rules::BLOCK;
use table::RECORD;

// Writes the line of one record at the start of what is lent: the part of an output that starts after the last line.
pub fn line(block: [u8; BLOCK], sighted: [u8; RECORD], out: &mut [u8]) -> Result<usize, Refusal>
    ensures { Lined block (line block sighted) out.old result out.new }
{
    let Some(shape) = Shape::of(block) else {
        return Err(Refusal::OutOfRange);
    };
    if out.len() < shape.width() {
        return Err(Refusal::NoRoom);
    }
    Ok(shape.put_line(&sighted, out))
}

// Writes the lines of all m records into an output that has room for them, each into what is left behind the last.
fn put_lines(shape: &Shape, sent: &[u8], m: usize, out: &mut [u8]) -> usize
    requires { (m ≡ length (records_in sent.now)) × (width_of shape.now.block * m ≤ length out.old) }
    ensures { (result ≡ width_of shape.now.block * m) × (out.new ≡ put 0 (lines_of shape.now.block sent.now) out.old) }
{
    let mut at = 0;
    for k in 0..m {
        let from = 2 + RECORD * k;
        at += shape.put_line(&sent[from..from + RECORD], &mut out[at..]);
    }
    at
}

// Writes the lines of all m records, if there is room for all of them.
fn put_all(shape: &Shape, sent: &[u8], m: usize, out: &mut [u8]) -> Result<usize, Refusal>
    requires { (read_data sent.now ≡ true) × (m ≡ length (records_in sent.now)) }
    ensures { AllLined shape.now.block sent.now out.old result out.new }
{
    if out.len() / shape.width() < m {
        return Err(Refusal::NoRoom);
    }
    Ok(put_lines(shape, sent, m, out))
}

// Writes a line for each record that the data of a reply to 0x22 carry, all or none.
pub fn lines(block: [u8; BLOCK], sent: &[u8], out: &mut [u8]) -> Result<usize, Refusal>
    ensures { AllLined block sent.now out.old result out.new }
{
    let Some(shape) = Shape::of(block) else {
        return Err(Refusal::OutOfRange);
    };
    let Ok(m) = typed::count_in(sent) else {
        return Err(Refusal::OutOfRange);
    };
    put_all(&shape, sent, m, out)
}

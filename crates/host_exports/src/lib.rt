// The static library of the host side: each of its calls is that of `host_c`, under the same name and with the same promise.
#![tactic(auto)]

ghost use Rattle.std.specs.Prelude.{◌≡◌};
ghost use Rattle.reader.specs.Reader.{read_as};
ghost use Rattle.asking.specs.Numbers.{request_of};
ghost use Rattle.host_c.specs.Coded.{read_code, LineAs, LinesAs, FramedAs, BlockAs, TimerAs, SizesAs, RecordAs};

// Makes a request.
// Numbers here and below, and a function over each call of host_c: the C interface passes numbers, and a crate is a library or an archive.
#[unsafe(no_mangle)]
pub extern "C" fn depot_make(
    kind: u64,
    desk: u64,
    control: u64,
    a: u64,
    b: u64,
    c: u64,
    bytes: &[u8],
    out: &mut [u8],
) -> u64
    ensures { FramedAs (request_of kind desk control a b c bytes.now) out.old result out.new }
{
    host_c::depot_make(kind, desk, control, a, b, c, bytes, out)
}

// Reads the reply to a request.
#[unsafe(no_mangle)]
pub extern "C" fn depot_read(
    kind: u64,
    desk: u64,
    control: u64,
    a: u64,
    b: u64,
    c: u64,
    bytes: &[u8],
    reply: &[u8],
) -> u64
    ensures { result ≡ read_code (read_as (request_of kind desk control a b c bytes.now) reply.now) }
{
    host_c::depot_read(kind, desk, control, a, b, c, bytes, reply)
}

// Writes the line of one record.
#[unsafe(no_mangle)]
pub extern "C" fn depot_line(block: &[u8], sighted: &[u8], out: &mut [u8]) -> u64
    ensures { LineAs block.now sighted.now out.old result out.new }
{
    host_c::depot_line(block, sighted, out)
}

// Writes a line for each record that the data of a 0x22 reply carry, all or none.
#[unsafe(no_mangle)]
pub extern "C" fn depot_lines(block: &[u8], sent: &[u8], out: &mut [u8]) -> u64
    ensures { LinesAs block.now sent.now out.old result out.new }
{
    host_c::depot_lines(block, sent, out)
}

// The bytes of a block, of a reply to 0x80.
#[unsafe(no_mangle)]
pub extern "C" fn depot_block(sent: &[u8], out: &mut [u8]) -> u64
    ensures { BlockAs sent.now out.old result out.new }
{
    host_c::depot_block(sent, out)
}

// Hour, minute and milliseconds, of a reply to 0x86.
#[unsafe(no_mangle)]
pub extern "C" fn depot_timer(sent: &[u8], out: &mut [u64]) -> u64
    ensures { TimerAs sent.now out.old result out.new }
{
    host_c::depot_timer(sent, out)
}

// TAB-SIZE, TAB-START and TAB-LEN, of a reply to 0x31.
#[unsafe(no_mangle)]
pub extern "C" fn depot_sizes(sent: &[u8], out: &mut [u64]) -> u64
    ensures { SizesAs sent.now out.old result out.new }
{
    host_c::depot_sizes(sent, out)
}

// UID, hour, minute, milliseconds and antenna mask of record i, of a reply to 0x22.
#[unsafe(no_mangle)]
pub extern "C" fn depot_record(sent: &[u8], i: usize, out: &mut [u64]) -> u64
    ensures { RecordAs sent.now i out.old result out.new }
{
    host_c::depot_record(sent, i, out)
}

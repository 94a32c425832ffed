// The pieces of a scan line: heading, octets as hex or raw, separator, end. Each is written at a place, and the next place is returned.
#![tactic(auto)]

ghost use Rattle.std.specs.Prelude.{◌≡◌, true, is_some, IfSome, ◌+◌, ◌%◌, ◌≤◌, ◌<◌, max, length, get_or};
ghost use Rattle.octets.specs.Parts.{part, put};
ghost use Rattle.rules.specs.Config.{line_legal};
ghost use Rattle.rules.specs.Line.{shown, heading, mark_of, separator, ending, line};
ghost use Rattle.pieces.specs.Pieces.{shown_width, width_of};

use rules::BLOCK;

// What a SEP-CHAR or END-CHAR means; its last bit, the user's octets.
fn mark_of<'a>(char: u8, user: &'a [u8]) -> &'a [u8]
    ensures { result.now ≡ mark_of char user.now }
{
    match char.trailing_zeros() {
        0 => b"\r\n",
        1 => b"\n",
        2 => b"\r",
        3 => b"\t",
        4 => b";",
        5 => b",",
        6 => b" ",
        7 => user,
        _ => b"",
    }
}

// How many octets show one: two hex digits by DB-USE 2.
fn shown_width(usage: u8) -> usize
    ensures { (result ≡ shown_width usage) × (1 ≤ result) × (result ≤ 2) }
{
    if usage == 2 { 2 } else { 1 }
}

// Writes octets as they are. A loop and no `copy_to`: that would make a museum's link want `memmove`, and they are few.
fn put_raw(s: &[u8], out: &mut [u8], at: usize) -> usize
    requires { at + length s.now ≤ length out.old }
    ensures { (result ≡ at + length s.now) × (out.new ≡ put at s.now out.old) }
{
    for i in 0..s.len() {
        out[at + i] = s[i];
    }
    at + s.len()
}

// Writes octets as DB-USE says: capital hex by 2, raw by 0.
fn put_shown(usage: u8, s: &[u8], out: &mut [u8], at: usize) -> usize
    requires { at + length (shown usage s.now) ≤ length out.old }
    ensures { (result ≡ at + length (shown usage s.now)) × (out.new ≡ put at (shown usage s.now) out.old) }
{
    if usage == 2 {
        digits::hex::put_hex(s, out, at);
        at + 2 * s.len()
    } else {
        put_raw(s, out, at)
    }
}

// A block 7 that follows the rules: it shapes a line.
#[derive(Clone, Copy)]
pub struct Shape {
    pub block: [u8; BLOCK],
    ghost legal: { line_legal block ≡ true },
}

impl Shape {
    // Whether a block 7 follows the rules.
    #[tactic(auto, unfolding(rules::specs::Config::line_legal))]
    pub fn of(block: [u8; BLOCK]) -> Option<Shape>
        ensures legal { is_some result ≡ line_legal block }
        ensures same { IfSome result (λ s. s.block ≡ block) }
    {
        if ruling::shape_legal(block[0], block[1], block[3], block[13]) {
            Some(Shape { block })
        } else {
            None
        }
    }

    // The heading, as long as the high nibble of LEN-USR says.
    fn heading(&self) -> &[u8]
        ensures { (result.now ≡ heading self.now.block) × (length result.now ≤ 4) }
    {
        &self.block[8..8 + (self.block[13] / 16) as usize]
    }

    // The separator; the user's is byte 2.
    fn separator(&self) -> &[u8]
        ensures { (result.now ≡ separator self.now.block) × (length result.now ≤ 3) }
    {
        mark_of(self.block[1], &self.block[2..3])
    }

    // How many octets the user's end has: the low nibble of LEN-USR, 0 counting as 1.
    fn user_len(&self) -> usize
        ensures { (result ≡ max 1 (get_or self.now.block 13 0 % 16)) × (result ≤ 3) }
    {
        (self.block[13] % 16).max(1) as usize
    }

    // The end; the user's is bytes 4 to 6, or the first of them.
    fn ending(&self) -> &[u8]
        ensures { (result.now ≡ ending self.now.block) × (length result.now ≤ 3) }
    {
        mark_of(self.block[3], &self.block[4..4 + self.user_len()])
    }

    // How long a line is: it goes by block 7 alone.
    pub fn width(&self) -> usize
        ensures { (result ≡ width_of self.now.block) × (0 < result) }
    {
        // UID and timer have twelve octets.
        let shown = 12 * shown_width(self.block[0]);
        self.heading().len() + shown + self.separator().len() + self.ending().len()
    }

    // Writes the line of a record at the start of an output that has room for it.
    pub fn put_line(&self, sighted: &[u8], out: &mut [u8]) -> usize
        requires { (12 ≤ length sighted.now) × (width_of self.now.block ≤ length out.old) }
        ensures { (result ≡ width_of self.now.block) × (out.new ≡ put 0 (line self.now.block sighted.now) out.old) }
    {
        let usage = self.block[0];
        let uid = put_raw(self.heading(), out, 0);
        let sep = put_shown(usage, &sighted[..8], out, uid);
        let timer = put_raw(self.separator(), out, sep);
        let end = put_shown(usage, &sighted[8..12], out, timer);
        put_raw(self.ending(), out, end)
    }
}

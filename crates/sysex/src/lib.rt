// SysEx: what an ended one is to us (R3.1, R3.2, R3.6, R3.7), by the parser that the F7 found, which holds the SysEx's
// data bytes, for every value of it. A MIP message is judged in crate mip. Assumes nothing.
#![tactic(auto)]

ghost use Rattle.std.specs.Prelude.{◌≡◌};
ghost use Rattle.splitter.specs.Split.{body};
ghost use Rattle.sysex.specs.SysEx.{starts_with, kind_of};

use splitter::Parser;

// What an ended SysEx is.
#[derive(Clone, Copy, PartialEq, Eq)]
pub enum Kind {
    // A MIP message for us, well formed or not.
    Mip,
    // GM System On for us.
    SystemOn,
    // Anything else: it answers none and changes nothing.
    Other,
}

// What the SysEx of a parser is to the device with this own ID.
pub fn kind_of(parser: Parser, id: u8) -> Kind
    ensures { result ≡ kind_of id (body parser) }
{
    let n = parser.count;
    if (4 <= n) & starts_with(id, 0x7F, 0x0B, 0x01, parser.bytes) {
        return Kind::Mip;
    }
    if (n == 4) & starts_with(id, 0x7E, 0x09, 0x01, parser.bytes) {
        return Kind::SystemOn;
    }
    Kind::Other
}

// Whether the bytes l are first a, then 7F or the own ID, then b and c.
fn starts_with(id: u8, a: u8, b: u8, c: u8, l: [u8; 37]) -> bool
    ensures { result ≡ starts_with id a b c l }
{
    l[0] == a && (l[1] == 0x7F || l[1] == id) && l[2] == b && l[3] == c
}

// The judgement of a MIP message (R3.3 to R3.5), by the parser that its F7 found, for every value of it. Assumes
// nothing.
#![tactic(auto)]

ghost use Rattle.std.specs.Prelude.{◌≡◌, ◌≤◌, drop, length};
ghost use Rattle.splitter.specs.Split.{body};
ghost use Rattle.mip.specs.Mip.{pairs, judged_pairs, judged};

use refusals::Refusal;
use splitter::Parser;
use table::{Entry, Table};

// Reasons 7 to 9, pair by pair, with a mark for each channel that was listed. A last byte without a partner is not
// looked at.
fn judge_pairs(bytes: &[u8]) -> Result<Table, Refusal>
    requires { length bytes.now ≤ 32 }
    ensures { result ≡ judged_pairs (pairs bytes.now) }
{
    let mut t = Table::EMPTY;
    let mut before = 0;
    let mut listed = [false; 256];
    for pair in bytes.chunks_exact(2) {
        let (m, value) = (pair[0], pair[1]);
        if 15 < m {
            return Err(Refusal::MipNoChannel);
        }
        let channel = m + 1;
        if listed[usize::from(channel)] {
            return Err(Refusal::MipListedTwice);
        }
        if value < before {
            return Err(Refusal::MipFallingValue);
        }
        t.entries[usize::from(t.count)] = Entry { channel, value };
        t.count += 1;
        listed[usize::from(channel)] = true;
        before = value;
    }
    Ok(t)
}

// The table that a parser's MIP message gives, judged over the whole of it: the pairs follow the four bytes of the head.
pub fn judge(parser: Parser) -> Result<Table, Refusal>
    ensures { result ≡ judged (drop 4 (body parser)) }
{
    let n = parser.count;
    if 36 < n {
        return Err(Refusal::MipTooLong);
    }
    if n <= 4 || n % 2 == 1 {
        return Err(Refusal::MipOddLength);
    }
    judge_pairs(&parser.bytes[4..usize::from(n)])
}

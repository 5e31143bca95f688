// The text of the filter `pitches`: a call of the pitch of a note a line, `k,s,b` in decimal, read byte by byte, and
// for each the line `number,octave,entry` of its answer, put into a page. Reading and writing are the program's.
// Assumes nothing.
#![tactic(auto)]

ghost use Rattle.std.specs.Prelude.{◌*◌, ◌≤◌, ◌≡◌, ◌∷◌, length, take};
ghost use Rattle.text.specs.Text.{Put};
ghost use Rattle.fields.specs.Line.{after, after_all};
ghost use Rattle.pitch_lines.specs.PitchLines.{Answers, signed, pitch_fields};
ghost use Rattle.pitch_lines.specs.PitchLines.{line_answer, answer, answers_to, end_answer};

use fields::Line;
use pitch::Pitch;
use text::{put, put_number};

// What is read of a line after the bytes of a read, and the place in the page behind their answers.
#[derive(Clone, Copy)]
pub struct Answered {
    pub line: Line,
    pub used: usize,
}

// A comma and the octave.
fn put_octave(page: &mut [u8], at: usize, octave: i8) -> usize
    ensures { Put page.old at (44 ∷ signed octave) result page.new }
{
    let k = if octave < 0 {
        put(page, at, b",-")
    } else {
        put(page, at, b",")
    };
    put_number(page, k, u64::from(octave.unsigned_abs()))
}

// Octave and entry of a pitch, a comma before each, and 0AH.
pub fn put_pitch(page: &mut [u8], at: usize, p: Pitch) -> usize
    ensures { Put page.old at (pitch_fields p) result page.new }
{
    let a = put_octave(page, at, p.octave);
    let b = put(page, a, b",");
    let c = put_number(page, b, u64::from(p.entry));
    put(page, c, b"\n")
}

// The answer of a line that has ended. A key or a sensitivity above 255 is refused as 255 is, and a bend above 65535 as
// 65535.
fn put_answer(page: &mut [u8], at: usize, c: Line) -> usize
    ensures { Put page.old at (line_answer c) result page.new }
{
    if !c.digit || c.commas != 2 {
        return put(page, at, b"malformed\n");
    }
    let key = c.first.min(255) as u8;
    let sensitivity = c.previous.min(255) as u8;
    let bend = c.last.min(65535) as u16;
    match pitch::pitch_of(key, sensitivity, bend) {
        Ok(p) => {
            let k = put(page, at, b"0");
            put_pitch(page, k, p)
        }
        Err(r) => {
            let k = put_number(page, at, u64::from(r.number()));
            put(page, k, b",0,65536\n")
        }
    }
}

// A byte of the input.
#[tactic(auto, using(text::proofs::Joined::nothing_put), unfolding(fields::specs::Answers::answer_by, fields::specs::Line::after))]
fn one(c: Line, page: &mut [u8], used: &mut usize, b: u8) -> Line
    ensures { Answers page.old used.old
        (answer c b) (after c b) result used.new page.new }
{
    if b == 10 {
        let at = *used;
        *used = put_answer(page, at, c);
        return fields::begin();
    }
    fields::read(c, b)
}

// The bytes of a read, answered from the page's start on. Where the page has 16 bytes for each of them, what stands
// before `used` is what they are answered, whole.
pub fn all(c: Line, page: &mut [u8], bytes: &[u8]) -> Answered
    ensures answers { Answers page.old 0 (answers_to c bytes.now)
        (after_all c bytes.now) result.line result.used page.new }
    ensures page_after { 16 * length bytes.now ≤ length page.old
        → take result.used page.new ≡ answers_to c bytes.now }
{
    let mut k = c;
    let mut used = 0;
    for &b in bytes {
        k = one(k, page, &mut used, b);
    }
    Answered { line: k, used }
}

// The end of the input: a last line without its 0AH is answered all the same, if it has a byte.
#[tactic(auto, using(text::proofs::Joined::nothing_put), unfolding(fields::specs::Answers::end_answer_by))]
pub fn end(c: Line, page: &mut [u8]) -> usize
    ensures { Put page.old 0 (end_answer c) result page.new }
{
    if !c.digit && c.commas == 0 {
        return 0;
    }
    put_answer(page, 0, c)
}

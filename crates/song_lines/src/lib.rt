// The text of the program `hardest_song`: a request a line, `P,n` in decimal, read byte by byte, and for each the line
// `number,thefts` of its answer, put into a page. The song is crate `song`'s, and reading and writing are the
// program's. Assumes nothing.
#![tactic(auto)]

ghost use Rattle.std.specs.Prelude.{◌≤◌, ◌≡◌, ◌++◌, length, take, drop};
ghost use Rattle.text.specs.Text.{Put};
ghost use Rattle.fields.specs.Line.{after};
ghost use Rattle.fields.specs.Answers.{malformed_line};
ghost use Rattle.song.specs.Song.{song_answer, song_written};
ghost use Rattle.song_lines.specs.SongLines.{answer_line, line_request, request, end_request, SongPut};

use fields::Line;
use refusals::Refusal;
use text::{put, put_number};

// What a byte of the input asks for.
#[derive(Clone, Copy)]
pub enum Request {
    // Nothing: no line has ended.
    Nothing,
    // A line has ended that is not two numbers.
    Malformed,
    // The song for this polyphony, of so many bytes.
    Song(u8, usize),
}

// What is read of a line after a byte, and what the byte asks for.
#[derive(Clone, Copy)]
pub struct Step {
    pub line: Line,
    pub request: Request,
}

// What a line that has ended asks for. A P above 255 is refused as 255 is.
#[tactic(auto, unfolding(crate::specs::SongLines::line_request))]
fn ended(c: Line) -> Request
    ensures { result ≡ line_request c }
{
    if c.digit && c.commas == 1 {
        let polyphony = c.previous.min(255) as u8;
        return Request::Song(polyphony, c.last as usize);
    }
    Request::Malformed
}

// A byte of the input.
#[tactic(auto, unfolding(crate::specs::SongLines::request, fields::specs::Line::after))]
pub fn next(c: Line, b: u8) -> Step
    ensures { (result.line ≡ after c b) × (result.request ≡ request c b) }
{
    if b == 10 {
        return Step {
            line: fields::begin(),
            request: ended(c),
        };
    }
    Step {
        line: fields::read(c, b),
        request: Request::Nothing,
    }
}

// The end of the input: a last line without its 0AH is answered all the same, if it has a byte.
#[tactic(auto, unfolding(crate::specs::SongLines::end_request))]
pub fn end(c: Line) -> Request
    ensures { result ≡ end_request c }
{
    if !c.digit && c.commas == 0 {
        return Request::Nothing;
    }
    ended(c)
}

// What a song became: its answer, and how many bytes of the page standard output gets.
#[derive(Clone, Copy)]
pub struct Written {
    pub answer: Result<u32, Refusal>,
    pub used: usize,
}

// The song behind the page's first two bytes, which are for P and the own ID.
fn write_behind(page: &mut [u8], polyphony: u8, n: usize) -> Result<u32, Refusal>
    requires { 2 ≤ length page.old }
    ensures { (result ≡ song_answer polyphony n (drop 2 page.old))
        × (page.new ≡ take 2 page.old ++ song_written polyphony n (drop 2 page.old)) }
{
    song::write_song(polyphony, n, &mut page[2..])
}

// A song at the page's start, behind its P and the own ID 0, which is what standard output gets; a refused one gets
// nothing. A page without two bytes has no room for one.
pub fn put_song(page: &mut [u8], polyphony: u8, n: usize) -> Written
    ensures { SongPut polyphony n page.old result.answer result.used page.new }
{
    if page.len() < 2 {
        return Written {
            answer: Err(Refusal::SongTooLong),
            used: 0,
        };
    }
    let answer = write_behind(page, polyphony, n);
    match answer {
        Ok(_) => {
            page[0] = polyphony;
            page[1] = 0;
            Written {
                answer,
                used: n + 2,
            }
        }
        Err(_) => Written { answer, used: 0 },
    }
}

// The answer's line, at the page's start. Where the page has 16 bytes, what stands before the place that it answers is
// the line, whole.
pub fn put_answer(page: &mut [u8], a: Result<u32, Refusal>) -> usize
    ensures put { Put page.old 0 (answer_line a) result page.new }
    ensures page_after { 16 ≤ length page.old → take result page.new ≡ answer_line a }
{
    match a {
        Ok(t) => {
            let k = put(page, 0, b"0,");
            let m = put_number(page, k, u64::from(t));
            put(page, m, b"\n")
        }
        Err(r) => {
            let k = put_number(page, 0, u64::from(r.number()));
            put(page, k, b",0\n")
        }
    }
}

// The line of a malformed one.
pub fn put_malformed(page: &mut [u8]) -> usize
    ensures { Put page.old 0 malformed_line result page.new }
{
    put(page, 0, b"malformed\n")
}

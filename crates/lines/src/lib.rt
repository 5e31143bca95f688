// The lines in which programs list answers (R16.3 to R16.7), put into a page. Assumes nothing.
#![tactic(auto)]

ghost use Rattle.std.specs.Prelude.{◌++◌};
ghost use Rattle.text.specs.Text.{Put};
ghost use Rattle.lines.specs.Lines.{field, offset_field, dashes, was, note_fields, no_note_fields, line_of};

use allocation::Was;
use playing::Answer;
use text::{put, put_number};

// A comma and a number.
pub fn put_field(page: &mut [u8], at: usize, n: u8) -> usize
    ensures { Put page.old at (field n) result page.new }
{
    let k = put(page, at, b",");
    put_number(page, k, u64::from(n))
}

// A line's first field: the offset of the byte that completed what the line tells, 0 for the first MIDI byte; a start
// and a report have none.
fn put_offset(page: &mut [u8], at: usize, o: Option<u64>) -> usize
    ensures { Put page.old at (offset_field o) result page.new }
{
    match o {
        Some(n) => put_number(page, at, n),
        None => put(page, at, b"-"),
    }
}

fn put_was(page: &mut [u8], at: usize, w: Was) -> usize
    ensures { Put page.old at (was w ++ dashes 0) result page.new }
{
    match w {
        Was::Idle => put(page, at, b",idle\n"),
        Was::Release => put(page, at, b",release\n"),
        Was::Stolen => put(page, at, b",stolen\n"),
    }
}

fn put_note(page: &mut [u8], at: usize, channel: u8, key: u8, g: u8, w: Was) -> usize
    ensures { Put page.old at (note_fields channel key g w) result page.new }
{
    let a = put(page, at, b",note");
    let b = put_field(page, a, channel);
    let c = put_field(page, b, key);
    let d = put_field(page, c, g);
    put_was(page, d, w)
}

fn put_no_note(page: &mut [u8], at: usize, number: u8, channel: u8, key: u8) -> usize
    ensures { Put page.old at (no_note_fields number channel key) result page.new }
{
    let a = put_field(page, at, number);
    let b = put_field(page, a, channel);
    let c = put_field(page, b, key);
    put(page, c, b",-,-\n")
}

// The line of an answer; none for an answer that says nothing.
pub fn put_line(page: &mut [u8], at: usize, o: Option<u64>, a: Answer) -> usize
    ensures { Put page.old at (line_of o a) result page.new }
{
    match a {
        Answer::Nothing => at,
        Answer::Done => {
            let k = put_offset(page, at, o);
            put(page, k, b",done,-,-,-,-\n")
        }
        Answer::Note(channel, key, g, w) => {
            let k = put_offset(page, at, o);
            put_note(page, k, channel, key, g, w)
        }
        Answer::NoNote(refusal, channel, key) => {
            let k = put_offset(page, at, o);
            put_no_note(page, k, refusal.number(), channel, key)
        }
        Answer::Number(refusal) => {
            let k = put_offset(page, at, o);
            let m = put_field(page, k, refusal.number());
            put(page, m, b",-,-,-,-\n")
        }
    }
}

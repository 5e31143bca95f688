// The MIP message of a song's log (R14.1 to R14.6, R14.9), by value, for an order and a log of any bytes; the log in
// parts of any length (R14.10), so that it may be longer than memory. What holds of every message that is written is
// stated and proved in crate `arranged`. Assumes nothing.
#![tactic(auto)]

ghost use Rattle.std.specs.Prelude.{◌≡◌, ◌&&◌, not, ◌<◌, eqb, get_or};
ghost use Rattle.splitter.specs.Split.{body, split};
ghost use Rattle.sysex.specs.SysEx.{is_mip};
ghost use Rattle.refusals.specs.Refusals.{number};
ghost use Rattle.allocation.specs.Allocation.{is_stolen};
ghost use Rattle.event_line.specs.Log.{text_of};
ghost use Rattle.arranging.specs.Arranging.{is_sys_ex, ends_mip, loses_note, listing, mip_message, refused, message};
ghost use Rattle.arranging.specs.Run.{counted, is_quiet, stopped, event_played};
ghost use Rattle.arranging.specs.Run.{line_played, heard, song_begun, begun, ended_by, finished};

use allocation::Was;
use device::{Device, Output};
use event_line::Line;
use events::Event;
use playing::Answer;
use refusals::Refusal;
use splitter::{Completed, Parser};
use sysex::Kind;

// The message, with number 0; or 38 zeros beside R8.15, R8.16 or R8.17.
#[repr(C)]
#[derive(Clone, Copy)]
pub struct Written {
    // The last line that was looked at, from 1: where the number fell, or how many there are; 0 with 16.
    pub line: u64,
    pub number: u8,
    pub bytes: [u8; 38],
}

// What the log came to so far. Its numbers are plain ones, as in every record that a driver lends.
#[repr(C)]
#[derive(Clone, Copy)]
pub struct Song {
    pub device: Device,
    pub order: [u8; 16],
    // The largest joint count of each place of the order.
    pub most: [u8; 16],
    // How many lines were looked at.
    pub lines: u64,
    // The number, if one fell, or 0.
    pub number: u8,
}

// Between two parts of a log: the song, and the line that is not ended.
#[repr(C)]
#[derive(Clone, Copy)]
pub struct Run {
    pub song: Song,
    pub line: Line,
}

// ---- a line

fn is_sysex(c: Completed) -> bool
    ensures { result ≡ is_sys_ex c }
{
    matches!(c, Completed::SysEx)
}

// Whether the parser holds a MIP message that is for everybody, 7F, or for own ID 0.
fn is_mip(p: Parser) -> bool
    ensures { result ≡ is_mip 0 (body p) }
{
    matches!(sysex::kind_of(p, 0), Kind::Mip)
}

// Whether the byte ends one: it is the parser before the byte that holds it.
fn ends_mip_at(p: Parser, b: u8) -> bool
    ensures { result ≡ (is_sys_ex (split p b).completed && is_mip 0 (body p)) }
{
    is_sysex(p.completes(b)) && is_mip(p)
}

fn ends_mip(d: Device, e: Event) -> bool
    ensures { result ≡ ends_mip d e }
{
    match e {
        Event::Byte(b) => ends_mip_at(d.parser, b),
        Event::Report(_) => false,
    }
}

fn is_theft(w: Was) -> bool
    ensures { result ≡ is_stolen w }
{
    matches!(w, Was::Stolen)
}

fn is_nothing_to_steal(r: Refusal) -> bool
    ensures { result ≡ eqb (number r) 11 }
{
    r.number() == Refusal::NothingToSteal.number()
}

// Whether a note is lost: an older one by theft, or the new one since none is to be stolen.
#[tactic(auto, unfolding(crate::specs::Arranging::loses_note))]
fn loses_note(a: Answer) -> bool
    ensures { result ≡ loses_note a }
{
    match a {
        Answer::Note(_, _, _, w) => is_theft(w),
        Answer::NoNote(r, _, _) => is_nothing_to_steal(r),
        Answer::Number(r) => is_nothing_to_steal(r),
        _ => false,
    }
}

// Whether an answer is none.
fn is_quiet(a: Answer) -> bool
    ensures { result ≡ is_quiet a }
{
    matches!(a, Answer::Nothing)
}

// One line more, as it is told.
fn one_more(lines: u64) -> u64
    ensures { result ≡ counted lines }
{
    lines.saturating_add(1)
}

// Whether a number has fallen.
fn has_fallen(number: u8) -> bool
    ensures { result ≡ not (eqb number 0) }
{
    number != 0
}

// A number falls: no line behind this one is looked at.
#[tactic(auto, unfolding(crate::specs::Run::stopped))]
fn stop(s: Song, refusal: Refusal) -> Song
    ensures { result ≡ stopped s (number refusal) }
{
    Song {
        lines: one_more(s.lines),
        number: refusal.number(),
        ..s
    }
}

fn play_event(s: Song, e: Event) -> Song
    ensures { result ≡ event_played s e }
{
    let Output { answer, device } = events::apply(s.device, e);
    if ends_mip(s.device, e) | loses_note(answer) {
        return stop(s, Refusal::UnfitLog);
    }
    let lines = one_more(s.lines);
    // Most bytes complete nothing: they move no generator, and nothing is counted.
    if is_quiet(answer) {
        return Song {
            device,
            lines,
            number: 0,
            ..s
        };
    }
    let most = joint::raise(s.order, s.most, device.instrument.generators);
    Song {
        device,
        most,
        lines,
        number: 0,
        ..s
    }
}

// A line that has ended.
fn play_line(s: Song, l: Line) -> Song
    ensures { result ≡ line_played s (text_of l) }
{
    if has_fallen(s.number) {
        return s;
    }
    match event_line::read(l) {
        Some(e) => play_event(s, e),
        None => stop(s, Refusal::WrongLine),
    }
}

// ---- the message

// Byte i of the message.
fn byte_at(order: [u8; 16], most: [u8; 16], i: usize) -> u8
    requires { i < 38 }
    ensures { result ≡ get_or (mip_message (listing order most)) i 0 }
{
    // To all devices.
    let head: [u8; 5] = [0xF0, 0x7F, 0x7F, 0x0B, 0x01];
    if i < 5 {
        return head[i];
    }
    if i == 37 {
        return 0xF7;
    }
    let k = (i - 5) / 2;
    if (i - 5) % 2 == 0 {
        return order[k].saturating_sub(1);
    }
    most[k]
}

// Those of all places.
fn compose(order: [u8; 16], most: [u8; 16]) -> [u8; 38]
    ensures { result ≡ mip_message (listing order most) }
{
    let mut out = [0; 38];
    for i in 0..38 {
        out[i] = byte_at(order, most, i);
    }
    out
}

// 38 zero bytes beside a number.
fn refuse(number: u8, line: u64) -> Written
    ensures { result ≡ refused number line }
{
    Written {
        line,
        number,
        bytes: [0; 38],
    }
}

// The end of a song in which no number fell, with n bytes of a line that is not ended.
fn end_song(s: Song, n: u8) -> Written
    ensures { result ≡ ended_by s n }
{
    if n != 0 {
        return refuse(Refusal::WrongLine.number(), one_more(s.lines));
    }
    Written {
        line: s.lines,
        number: 0,
        bytes: compose(s.order, s.most),
    }
}

// ---- the operation in parts

// The song of an order and of the number that has fallen, or 0.
fn begin_song(order: [u8; 16], fallen: u8) -> Run
    ensures { result ≡ song_begun order fallen }
{
    Run {
        song: Song {
            device: device::start(64, 0).device,
            order,
            most: [0; 16],
            lines: 0,
            number: fallen,
        },
        line: Line::new(),
    }
}

// Before the first part: the order is looked at.
pub fn begin(order: &[u8]) -> Run
    ensures { result ≡ begun order.now }
{
    match order::read(order) {
        Some(order) => begin_song(order, 0),
        None => begin_song([0; 16], Refusal::WrongOrder.number()),
    }
}

// One part more.
pub fn take(r: Run, part: &[u8]) -> Run
    ensures { result ≡ heard r part.now }
{
    let Run { mut song, mut line } = r;
    for &b in part {
        line = line.push(b);
        if b == b'\n' {
            song = play_line(song, line);
            line = Line::new();
        }
    }
    Run { song, line }
}

// After the last part.
pub fn end(r: Run) -> Written
    ensures { result ≡ finished r }
{
    let Run { song, line } = r;
    if has_fallen(song.number) {
        return refuse(song.number, song.lines);
    }
    end_song(song, line.count)
}

// The message of an order and a log.
pub fn message(order: &[u8], log: &[u8]) -> Written
    ensures { result ≡ message order.now log.now }
{
    end(take(begin(order), log))
}

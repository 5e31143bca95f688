// Runs test vectors: reads lines of commands from standard input, of any length, repeats each line and writes below it
// what the device answers, in the fields of the listing, before it waits for more. Numbers in a command are two
// hexadecimal digits, each behind one blank; those of an answer are decimal.
//
//     # ..        a comment
//     P pp dd     starts a device with polyphony pp and own ID dd, and answers
//     B bb ..     MIDI bytes, 1 to 64: a line for each answer other than none, with the byte's offset since the start
//     R gg        reports the end of generator gg, and answers
//     G gg        asks for generator gg: its number, state, channel and key
//     M cc        asks whether channel cc is masked
//     S cc        asks for the share of channel cc
//     T           the shares of channels 1 to 16 in one line, - for a masked channel
//     W           who plays: a line as that of G for each generator that is not idle
//     D cc        asks whether channel cc is a rhythm channel
//     C cc        the thirteen numbers of channel cc, in the order of R1.8
//     K kk ss mm ll  the octave and entry of key kk with sensitivity ss and bend 128 × mm + ll
//     L ee vv pp  the gains left and right with expression ee, volume vv and pan pp, to the nearest hundred-thousandth
//     L cc        the same, by the numbers of channel cc
//     H pp nn nn nn ll ll ll  the thefts of the hardest song for polyphony pp, of n bytes in a buffer of l bytes, each
//                 in three numbers, highest first; below it the buffer, all FF before, where it has 1 to 64 bytes. l is
//                 at most 65,538
//     V           the service page of the device, in a buffer of 323 bytes: its 17 lines as they are
//     V hh ll     the same in a buffer of 256 × hh + ll bytes, at most 1,024, all FF before: its number 18 on a line,
//                 or the page's 17 lines; below that, in hexadecimal with blanks between, the bytes of the buffer that
//                 are no page's (all of them where it was refused, else those behind the 323rd), on a line, where
//                 there are 1 to 64 of them
//     O oo ..     begins a log with this order, 1 to 64 numbers or none
//     A bb ..     a part of the log, 1 to 64 bytes
//     E           the end of the log so far: number, line and message, the message in hexadecimal
//
// A refused query answers its number only. Any other line is answered `malformed` and has no effect; an empty line has
// no answer. Before the first P the device is one with P 1 and own ID 0, and before the first O the log is one of an
// order of no channels; O, A and E leave the device as it is, and V leaves device and log. Assumes nothing.
#![tactic(auto)]

mod answers;
mod asked;
mod line;
mod pages;
mod songs;
mod sounds;

use crate::answers::put_malformed;
use crate::asked::put_asked;
use crate::line::{Awaits, Line, in_three};
use crate::pages::put_service_asked;
use crate::songs::put_song_asked;
use crate::sounds::{put_levels_asked, put_pitch_asked};
use arranging::Run;
use console::{Failed, Filter};
use device::Device;
use events::Event;
use std::ops::ControlFlow;

// What is kept from byte to byte: the line, the offset of the next MIDI byte, the bytes of the page in use, the device,
// and the log.
#[derive(Clone, Copy)]
struct Bench {
    line: Line,
    at: u64,
    used: usize,
    device: Device,
    log: Run,
}

impl Bench {
    fn new() -> Bench {
        Bench {
            line: Line::new(),
            at: 0,
            used: 0,
            device: device::start(1, 0).device,
            log: arranging::begin(b""),
        }
    }

    fn start(&mut self, page: &mut [u8], polyphony: u8, id: u8) {
        let o = device::start(polyphony, id);
        self.used = lines::put_line(page, self.used, None, o.answer);
        self.at = 0;
        self.device = o.device;
    }

    fn apply(&mut self, page: &mut [u8], offset: Option<u64>, e: Event) {
        let o = events::apply(self.device, e);
        self.used = lines::put_line(page, self.used, offset, o.answer);
        self.device = o.device;
    }

    // MIDI bytes.
    fn take_bytes(&mut self, page: &mut [u8], bytes: &[u8]) {
        for b in bytes {
            self.apply(page, Some(self.at), Event::Byte(*b));
            self.at = self.at.saturating_add(1);
        }
    }

    // A command.
    fn run_command(&mut self, page: &mut [u8]) {
        let line = self.line;
        match (line.command, line.numbers()) {
            (b'P', &[polyphony, id]) => self.start(page, polyphony, id),
            (b'R', &[g]) => self.apply(page, None, Event::Report(g)),
            (b'B', [_, ..]) => self.take_bytes(page, line.numbers()),
            (b'O', order) => self.log = arranging::begin(order),
            (b'A', [_, ..]) => self.log = arranging::take(self.log, line.numbers()),
            (command, numbers) => self.used = self.put_told(page, command, numbers),
        }
    }

    // The answer to a command that changes nothing.
    fn put_told(&self, page: &mut [u8], command: u8, numbers: &[u8]) -> usize {
        match (command, numbers) {
            (b'K', &[key, sensitivity, msb, lsb]) => {
                put_pitch_asked(page, self.used, key, sensitivity, msb, lsb)
            }
            (b'L', &[expression, volume, pan]) => {
                put_levels_asked(page, self.used, expression, volume, pan)
            }
            (b'H', &[polyphony, a, b, c, d, e, f]) => put_song_asked(
                page,
                self.used,
                polyphony,
                in_three(a, b, c),
                in_three(d, e, f),
            ),
            (b'E', []) => log_lines::put_written(page, self.used, arranging::end(self.log)),
            (b'V', []) => put_service_asked(page, self.used, self.device, 323),
            (b'V', &[high, low]) => {
                put_service_asked(page, self.used, self.device, in_three(0, high, low))
            }
            _ => put_asked(page, self.used, self.device, command, numbers),
        }
    }

    // A line's end: the line is run, if it is a command.
    fn end_line(&mut self, page: &mut [u8]) {
        match self.line.awaits {
            Awaits::Command | Awaits::Comment => {}
            Awaits::Gap => self.run_command(page),
            _ => self.used = put_malformed(page, self.used),
        }
        self.line = Line::new();
    }

    // One byte of the input.
    fn read(&mut self, page: &mut [u8], b: u8) {
        self.used = text::put_byte(page, self.used, b);
        if b == b'\n' {
            self.end_line(page);
        } else {
            self.line.read(b);
        }
    }
}

impl Filter for Bench {
    const NAME: &'static [u8] = b"vectors";

    // The line goes out in one write.
    fn tell(&self, rt: &HostRuntime, what: &[u8]) -> Failed {
        let mut line = [0u8; 64];
        let behind = text::put(&mut line, 0, Self::NAME);
        let used = text::put(&mut line, behind, what);
        let _ = console::write_error(rt, &line, used);
        Failed
    }

    fn take(
        &mut self,
        rt: &HostRuntime,
        page: &mut [u8],
        bytes: &[u8],
    ) -> Result<ControlFlow<()>, Failed> {
        self.used = 0;
        for b in bytes {
            self.read(page, *b);
        }
        self.write_out(rt, page, self.used)?;
        Ok(ControlFlow::Continue(()))
    }

    // A last line without its end is run all the same.
    fn end(&mut self, rt: &HostRuntime, page: &mut [u8]) -> Result<(), Failed> {
        self.used = 0;
        if !matches!(self.line.awaits, Awaits::Command) {
            self.read(page, b'\n');
        }
        self.write_out(rt, page, self.used)
    }
}

// A command's answer is no longer than 64 lines, and the shortest command has two bytes, so the page has room for what
// a read of 256 bytes calls for.
fn main(rt: HostRuntime) {
    let mut input = [0u8; 256];
    let mut page = [0u8; 262144];
    let _ = Bench::new().run(&rt, &mut input, &mut page);
}

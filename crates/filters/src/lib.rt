// The programs that read standard input and write standard output, each as a function that answers its exit status, over
// the runtime that a program's `main` is given. What is known is written before more is waited for; the answers to
// requests of songs, and of a log, go to standard error. The loop that reads is crate `console`'s, and what the bytes
// answer is in crates `listed`, `pitch_lines`, `song_lines`, `log_lines` and `page_lines`. Assumes nothing.
#![tactic(auto)]

ghost use Rattle.std.specs.Prelude.{◌≤◌};

use console::{Failed, Filter};
use fields::Line;
use listed::Lister;
use log_lines::Reading;
use song_lines::Request;
use std::ops::ControlFlow;

// A byte lists no more than 128 bytes, and is answered by no more than 16, so the page has room for what a read of 1,024
// calls for. It has room for the longest song too.
fn run<F: Filter>(rt: &HostRuntime, filter: F) -> Result<(), Failed> {
    let mut input = [0u8; 1024];
    let mut page = [0u8; 131072];
    filter.run(rt, &mut input, &mut page)
}

// The exit status: 0, or 1 if the program failed.
fn status(outcome: Result<(), Failed>) -> u32
    ensures { result ≤ 1 }
{
    match outcome {
        Ok(()) => 0,
        Err(Failed) => 1,
    }
}

// ---- the listing program

#[derive(Clone, Copy)]
struct Listing {
    lister: Lister,
}

impl Filter for Listing {
    const NAME: &'static [u8] = b"listing";

    fn begin(&mut self, rt: &HostRuntime, page: &mut [u8]) -> Result<(), Failed> {
        let used = listed::put_heading(page);
        self.write_out(rt, page, used)
    }

    // An input whose start was refused is over.
    fn take(
        &mut self,
        rt: &HostRuntime,
        page: &mut [u8],
        bytes: &[u8],
    ) -> Result<ControlFlow<()>, Failed> {
        let s = listed::all(self.lister, page, bytes);
        self.lister = s.lister;
        self.write_out(rt, page, s.used)?;
        if listed::is_refused(self.lister.awaits) {
            return Ok(ControlFlow::Break(()));
        }
        Ok(ControlFlow::Continue(()))
    }

    fn end(&mut self, rt: &HostRuntime, page: &mut [u8]) -> Result<(), Failed> {
        let used = listed::end(self.lister, page);
        self.write_out(rt, page, used)
    }
}

pub fn listing_status(rt: &HostRuntime) -> u32
    ensures { result ≤ 1 }
{
    let lister = listed::begin();
    status(run(rt, Listing { lister }))
}

// ---- the pitch filter

#[derive(Clone, Copy)]
struct Pitches {
    line: Line,
}

impl Filter for Pitches {
    const NAME: &'static [u8] = b"pitches";

    fn take(
        &mut self,
        rt: &HostRuntime,
        page: &mut [u8],
        bytes: &[u8],
    ) -> Result<ControlFlow<()>, Failed> {
        let s = pitch_lines::all(self.line, page, bytes);
        self.line = s.line;
        self.write_out(rt, page, s.used)?;
        Ok(ControlFlow::Continue(()))
    }

    fn end(&mut self, rt: &HostRuntime, page: &mut [u8]) -> Result<(), Failed> {
        let used = pitch_lines::end(self.line, page);
        self.write_out(rt, page, used)
    }
}

pub fn pitches_status(rt: &HostRuntime) -> u32
    ensures { result ≤ 1 }
{
    let line = fields::begin();
    status(run(rt, Pitches { line }))
}

// ---- the program that writes the hardest song

#[derive(Clone, Copy)]
struct HardestSong {
    line: Line,
    // A request was refused or malformed.
    refused: bool,
}

impl HardestSong {
    // A song is written whole before its answer says so. The page is the song's buffer.
    fn give_song(
        &mut self,
        rt: &HostRuntime,
        page: &mut [u8],
        polyphony: u8,
        n: usize,
    ) -> Result<(), Failed> {
        let w = song_lines::put_song(page, polyphony, n);
        self.write_out(rt, page, w.used)?;
        self.refused |= w.answer.is_err();
        let mut line = [0u8; 16];
        let used = song_lines::put_answer(&mut line, w.answer);
        console::write_error(rt, &line, used)?;
        Ok(())
    }

    fn answer(
        &mut self,
        rt: &HostRuntime,
        page: &mut [u8],
        request: Request,
    ) -> Result<(), Failed> {
        match request {
            Request::Nothing => Ok(()),
            Request::Malformed => {
                self.refused = true;
                let mut line = [0u8; 16];
                let used = song_lines::put_malformed(&mut line);
                console::write_error(rt, &line, used)?;
                Ok(())
            }
            Request::Song(polyphony, n) => self.give_song(rt, page, polyphony, n),
        }
    }
}

impl Filter for HardestSong {
    const NAME: &'static [u8] = b"hardest_song";

    // Each request is answered as soon as its line has ended.
    fn take(
        &mut self,
        rt: &HostRuntime,
        page: &mut [u8],
        bytes: &[u8],
    ) -> Result<ControlFlow<()>, Failed> {
        for b in bytes {
            let s = song_lines::next(self.line, *b);
            self.line = s.line;
            self.answer(rt, page, s.request)?;
        }
        Ok(ControlFlow::Continue(()))
    }

    // A request that was refused, at any time, is told by the status.
    fn end(&mut self, rt: &HostRuntime, page: &mut [u8]) -> Result<(), Failed> {
        let request = song_lines::end(self.line);
        self.answer(rt, page, request)?;
        if self.refused {
            return Err(Failed);
        }
        Ok(())
    }
}

// 1 too if a request was refused or malformed.
pub fn hardest_song_status(rt: &HostRuntime) -> u32
    ensures { result ≤ 1 }
{
    let songs = HardestSong {
        line: fields::begin(),
        refused: false,
    };
    status(run(rt, songs))
}

// ---- the program that writes the MIP message of a log

#[derive(Clone, Copy)]
struct Arrange {
    reading: Reading,
}

impl Filter for Arrange {
    const NAME: &'static [u8] = b"arrange";

    // Where a number has fallen the answer is known, whatever comes behind it.
    fn take(
        &mut self,
        rt: &HostRuntime,
        page: &mut [u8],
        bytes: &[u8],
    ) -> Result<ControlFlow<()>, Failed> {
        self.reading = log_lines::all(self.reading, bytes);
        if log_lines::is_known(self.reading) {
            self.end(rt, page)?;
            return Ok(ControlFlow::Break(()));
        }
        Ok(ControlFlow::Continue(()))
    }

    // The message is written whole before its line says so, and a number is told by the status.
    fn end(&mut self, rt: &HostRuntime, page: &mut [u8]) -> Result<(), Failed> {
        let w = log_lines::end(self.reading);
        let used = log_lines::put_message(page, w);
        self.write_out(rt, page, used)?;
        let mut line = [0u8; 160];
        let length = log_lines::put_written(&mut line, 0, w);
        console::write_error(rt, &line, length)?;
        if w.number != 0 {
            return Err(Failed);
        }
        Ok(())
    }
}

// 1 too if a number fell.
pub fn arrange_status(rt: &HostRuntime) -> u32
    ensures { result ≤ 1 }
{
    let reading = log_lines::begin();
    status(run(rt, Arrange { reading }))
}

// ---- the program that writes the service page

#[derive(Clone, Copy)]
struct Page {
    lister: Lister,
}

impl Filter for Page {
    const NAME: &'static [u8] = b"page";

    // Nothing is written before the input's end, unless its start was refused.
    fn take(
        &mut self,
        rt: &HostRuntime,
        page: &mut [u8],
        bytes: &[u8],
    ) -> Result<ControlFlow<()>, Failed> {
        self.lister = page_lines::all(self.lister, bytes);
        if listed::is_refused(self.lister.awaits) {
            self.end(rt, page)?;
            return Ok(ControlFlow::Break(()));
        }
        Ok(ControlFlow::Continue(()))
    }

    // A refused start is told by the status.
    fn end(&mut self, rt: &HostRuntime, page: &mut [u8]) -> Result<(), Failed> {
        let lister = page_lines::end(self.lister);
        let used = page_lines::put_answer(page, lister);
        self.write_out(rt, page, used)?;
        if listed::is_refused(lister.awaits) {
            return Err(Failed);
        }
        Ok(())
    }
}

// 1 too if the start was refused.
pub fn page_status(rt: &HostRuntime) -> u32
    ensures { result ≤ 1 }
{
    let lister = listed::begin();
    status(run(rt, Page { lister }))
}

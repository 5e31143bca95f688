// The text of the program `page` (R17.5): the bytes of its input, which are those of the listing program and list
// nothing here, and at their end the service page of the device, or the number of a start that was refused. The page
// is crate `service`'s, and reading and writing are the program's. Assumes nothing.
#![tactic(auto)]

ghost use Rattle.std.specs.Prelude.{◌≤◌, ◌≡◌, length, take};
ghost use Rattle.text.specs.Text.{Put};
ghost use Rattle.refusals.specs.Refusals.{number};
ghost use Rattle.listed.specs.Listing.{after_all};
ghost use Rattle.service.specs.Page.{page_after};
ghost use Rattle.page_lines.specs.PageLines.{ended, number_line, page_room, AnswerPut, answer_text};

use device::Device;
use listed::{Awaits, Lister};
use refusals::Refusal;
use text::{put, put_number};

// The bytes of a read. The lines that they would list find no room and are dropped.
pub fn all(l: Lister, bytes: &[u8]) -> Lister
    ensures { result ≡ after_all l bytes.now }
{
    listed::all(l, &mut [], bytes).lister
}

// The end of the input (R16.1).
#[tactic(auto, unfolding(crate::specs::PageLines::ended))]
pub fn end(l: Lister) -> Lister
    ensures { result ≡ ended l }
{
    all(l, listed::missing(l.awaits))
}

// The service page at the page's start; nothing where it has no room.
#[tactic(auto, unfolding(service::specs::Page::page_answer, crate::specs::PageLines::page_room))]
fn put_page(page: &mut [u8], d: Device) -> usize
    ensures { (result ≡ page_room page.old) × (page.new ≡ page_after d page.old) }
{
    match service::write_page(d, page) {
        Ok(()) => 323,
        Err(_) => 0,
    }
}

// The number of a refused start, on a line.
fn put_refused(page: &mut [u8], refusal: Refusal) -> usize
    ensures { Put page.old 0 (number_line (number refusal)) result page.new }
{
    let k = put_number(page, 0, u64::from(refusal.number()));
    put(page, k, b"\n")
}

// The answer, at the page's start. Where the page has 323 bytes, it stands before the place that is answered, whole.
#[tactic(auto, unfolding(crate::specs::PageLines::answer_text))]
pub fn put_answer(page: &mut [u8], l: Lister) -> usize
    ensures answer_put { AnswerPut l.awaits l.device page.old result page.new }
    ensures page_after { 323 ≤ length page.old → take result page.new ≡ answer_text l }
{
    match l.awaits {
        Awaits::Polyphony | Awaits::Id(_) => 0,
        Awaits::Midi => put_page(page, l.device),
        Awaits::Refused(refusal) => put_refused(page, refusal),
    }
}

// What the listing program lists (R16.1 to R16.7): P, the own ID, then MIDI bytes, each of which may put a line into
// a page, and what the end of the input adds. Reading and writing are in crate `filters`. Assumes nothing.
#![tactic(auto)]

ghost use Rattle.std.specs.Prelude.{◌*◌, ◌≤◌, ◌≡◌, length, take};
ghost use Rattle.text.specs.Text.{Put};
ghost use Rattle.device.specs.Device.{started};
ghost use Rattle.listed.specs.Listing.{Lists, heading, new_lister, behind_start, missing};
ghost use Rattle.listed.specs.Listing.{is_refused, start_line, start_lister, midi_line};
ghost use Rattle.listed.specs.Listing.{after_midi, line, after, listed_by, after_all, end_line};

use device::Device;
use playing::Answer;
use refusals::Refusal;

// Which byte comes next.
#[derive(Clone, Copy)]
pub enum Awaits {
    // P.
    Polyphony,
    // The own ID, behind this P.
    Id(u8),
    // A MIDI byte.
    Midi,
    // None that counts: the start was refused for this reason, and the listing is complete.
    Refused(Refusal),
}

// What is kept from byte to byte: which byte comes next, the offset of the next MIDI byte, and the device.
#[derive(Clone, Copy)]
pub struct Lister {
    pub awaits: Awaits,
    pub at: u64,
    pub device: Device,
}

// What is kept after the bytes of a read, and the place in the page behind what they list.
#[derive(Clone, Copy)]
pub struct Listed {
    pub lister: Lister,
    pub used: usize,
}

// Before the first byte.
#[tactic(auto, unfolding(crate::specs::Listing::new_lister))]
pub fn begin() -> Lister
    ensures { result ≡ new_lister }
{
    Lister {
        awaits: Awaits::Polyphony,
        at: 0,
        device: device::start(1, 0).device,
    }
}

// The first line.
pub fn put_heading(page: &mut [u8]) -> usize
    ensures { Put page.old 0 heading result page.new }
{
    text::put(page, 0, b"at,what,channel,key,generator,was\n")
}

// What comes behind a start that is answered so: a start answers a number or *done*.
#[tactic(auto, unfolding(crate::specs::Listing::behind_start))]
fn behind_start(a: Answer) -> Awaits
    ensures { result ≡ behind_start a }
{
    match a {
        Answer::Number(refusal) => Awaits::Refused(refusal),
        _ => Awaits::Midi,
    }
}

// Whether the start was refused, so that no byte counts any more.
#[tactic(auto, unfolding(crate::specs::Listing::is_refused))]
pub fn is_refused(a: Awaits) -> bool
    ensures { result ≡ is_refused a }
{
    matches!(a, Awaits::Refused(_))
}

// The start: a refused one lists its number and takes no byte more.
#[tactic(auto, using(text::proofs::Joined::nothing_put), unfolding(crate::specs::Listing::start_line, crate::specs::Listing::start_lister))]
fn list_start(page: &mut [u8], used: &mut usize, polyphony: u8, id: u8) -> Lister
    ensures { Lists page.old used.old (start_line (started polyphony id))
        (start_lister (started polyphony id)) result used.new page.new }
{
    let o = device::start(polyphony, id);
    let awaits = behind_start(o.answer);
    if is_refused(awaits) {
        *used = lines::put_line(page, *used, None, o.answer);
    }
    Lister {
        awaits,
        at: 0,
        device: o.device,
    }
}

// A MIDI byte.
#[tactic(auto, unfolding(crate::specs::Listing::midi_line, crate::specs::Listing::after_midi, crate::specs::Listing::next_offset))]
fn list_byte(l: Lister, page: &mut [u8], used: &mut usize, b: u8) -> Lister
    ensures { Lists page.old used.old
        (midi_line l b) (after_midi l b) result used.new page.new }
{
    let o = device::byte(l.device, b);
    *used = lines::put_line(page, *used, Some(l.at), o.answer);
    Lister {
        awaits: Awaits::Midi,
        at: l.at.saturating_add(1),
        device: o.device,
    }
}

// One byte of the input: P, the ID or a MIDI byte.
#[tactic(auto, using(text::proofs::Joined::nothing_put), unfolding(crate::specs::Listing::line, crate::specs::Listing::after))]
fn one(l: Lister, page: &mut [u8], used: &mut usize, b: u8) -> Lister
    ensures { Lists page.old used.old
        (line l b) (after l b) result used.new page.new }
{
    match l.awaits {
        Awaits::Polyphony => Lister {
            awaits: Awaits::Id(b),
            ..l
        },
        Awaits::Id(polyphony) => list_start(page, used, polyphony, b),
        Awaits::Midi => list_byte(l, page, used, b),
        Awaits::Refused(_) => l,
    }
}

// The bytes of a read, listed from the page's start on. Where the page has 128 bytes for each of them, what stands
// before `used` is what they list, whole.
pub fn all(l: Lister, page: &mut [u8], bytes: &[u8]) -> Listed
    ensures lists { Lists page.old 0 (listed_by l bytes.now)
        (after_all l bytes.now) result.lister result.used page.new }
    ensures page_after { 128 * length bytes.now ≤ length page.old
        → take result.used page.new ≡ listed_by l bytes.now }
{
    let mut lister = l;
    let mut used = 0;
    for b in bytes {
        lister = one(lister, page, &mut used, *b);
    }
    Listed { lister, used }
}

// The bytes that the end of an input leaves missing, which are zeros (R16.1).
pub fn missing(a: Awaits) -> &'static [u8]
    ensures { result.now ≡ missing a }
{
    match a {
        Awaits::Polyphony => b"\0\0",
        Awaits::Id(_) => b"\0",
        Awaits::Midi | Awaits::Refused(_) => b"",
    }
}

// The end of the input (R16.1).
#[tactic(auto, unfolding(crate::specs::Listing::end_line))]
pub fn end(l: Lister, page: &mut [u8]) -> usize
    ensures { Put page.old 0 (end_line l) result page.new }
{
    all(l, page, missing(l.awaits)).used
}

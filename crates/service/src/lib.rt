// The service page (R15.1 to R15.7): the state of a device on 17 lines, written into a lent buffer. By value but for
// the buffer, for every value of the record.
// Assumes nothing.
#![tactic(auto)]

ghost use Rattle.std.specs.Prelude.{◌≡◌, ◌+◌, ◌≤◌, ◌&&◌, ◌++◌, ltb, length, get_or, take, drop};
ghost use Rattle.loops.specs.Passes.{up_to};
ghost use Rattle.table.specs.Table.{entries_of};
ghost use Rattle.generators.specs.Generators.{generator, is_busy};
ghost use Rattle.candidates.specs.Candidates.{busy_count};
ghost use Rattle.service.specs.Page.{in_two, in_three, standing_from, place_field, value_field};
ghost use Rattle.service.specs.Page.{share_field, mark, row, rows_to, page_after, page_answer};

use device::Device;
use generators::Generators;
use refusals::Refusal;
use table::Table;

// Where a channel stands in the table: its place in the order, from 1, and its value.
#[derive(Clone, Copy)]
pub struct Standing {
    pub place: u8,
    pub value: u8,
}

// ---- the fields

// A number right_aligned in two places.
#[tactic(auto, unfolding(crate::specs::Page::in_two))]
fn two(n: u8) -> [u8; 2]
    ensures { result ≡ in_two n }
{
    if n < 10 {
        return [b' ', b'0' + n % 10];
    }
    [b'0' + n / 10, b'0' + n % 10]
}

// A number right_aligned in three places.
#[tactic(auto, unfolding(crate::specs::Page::in_three))]
fn three(n: u8) -> [u8; 3]
    ensures { result ≡ in_three n }
{
    if n < 10 {
        return [b' ', b' ', b'0' + n % 10];
    }
    if n < 100 {
        return [b' ', b'0' + n / 10 % 10, b'0' + n % 10];
    }
    [b'0' + n / 100, b'0' + n / 10 % 10, b'0' + n % 10]
}

fn standing_of(t: Table, c: u8) -> Option<Standing>
    ensures { result ≡ standing_from 1 c (entries_of t) }
{
    let listed = &t.entries[..usize::from(t.count.min(16))];
    let k = listed.iter().position(|e| c == e.channel)?;
    Some(Standing {
        place: k as u8 + 1,
        value: listed[k].value,
    })
}

fn place_field(at: Option<Standing>) -> [u8; 2]
    ensures { result ≡ place_field at }
{
    match at {
        Some(s) => two(s.place),
        None => *b"--",
    }
}

fn value_field(at: Option<Standing>) -> [u8; 3]
    ensures { result ≡ value_field at }
{
    match at {
        Some(s) => three(s.value),
        None => *b"---",
    }
}

fn share_field(s: Option<u8>) -> [u8; 3]
    ensures { result ≡ share_field s }
{
    s.map_or(*b"---", three)
}

fn mark_of(s: Option<u8>) -> u8
    ensures { result ≡ mark s }
{
    match s {
        Some(_) => b'-',
        None => b'M',
    }
}

// Whether a generator counts: it is busy, on a channel that has a place among the counts.
fn is_counted(state: u8, channel: u8) -> bool
    ensures { result ≡ is_busy (generator state 0 0) && ltb channel 17 }
{
    generators::is_busy(state) & (channel < 17)
}

// How many generators are busy on each channel from 0, which has none, to 16: all channels in one pass.
fn busy_counts(s: Generators) -> [u8; 17]
    ensures { result ≡ up_to (busy_count s) 17 }
{
    let mut out = [0u8; 17];
    for g in 0..64 {
        let c = s.channel[g];
        if is_counted(s.state[g], c) {
            out[c as usize] += 1;
        }
    }
    out
}

// ---- the lines

// The line of a channel with so many busy generators.
fn line(t: Table, p: u8, c: u8, busy: u8) -> [u8; 19]
    ensures { result ≡ row (entries_of t) p (λ d. busy) c }
{
    let at = standing_of(t, c);
    let s = shares::share_of(t, p, c);
    let channel = two(c);
    let place = place_field(at);
    let value = value_field(at);
    let share = share_field(s);
    let mark = mark_of(s);
    let notes = two(busy);
    [
        channel[0], channel[1], b' ', place[0], place[1], b' ', value[0], value[1], value[2], b' ',
        share[0], share[1], share[2], b' ', mark, b' ', notes[0], notes[1], b'\n',
    ]
}

// A line at a place of the page that has room for it.
fn put(page: &mut [u8], at: usize, line: [u8; 19])
    requires { at + 19 ≤ length page.old }
    ensures { page.new ≡ take at page.old ++ line ++ drop (at + 19) page.old }
{
    page[at..at + 19].copy_from_slice(&line);
}

// The lines of the sixteen channels, behind the head.
fn put_rows(page: &mut [u8], t: Table, p: u8, busy: [u8; 17])
    requires { 323 ≤ length page.old }
    ensures { page.new ≡ take 19 page.old
        ++ rows_to (entries_of t) p (λ c. get_or busy c 0) 16 ++ drop 323 page.old }
{
    for c in 1..17 {
        put(page, 19 * c, line(t, p, c as u8, busy[c]));
    }
}

// Writes the page of a device into the first 323 bytes of a buffer; the other bytes keep their content. A buffer that
// is too short is left as it is.
pub fn write_page(d: Device, page: &mut [u8]) -> Result<(), Refusal>
    ensures { (result ≡ page_answer page.old) × (page.new ≡ page_after d page.old) }
{
    if page.len() < 323 {
        return Err(Refusal::ShortPage);
    }
    let i = d.instrument;
    put(page, 0, *b"CH PR VAL SHR M NT\n");
    put_rows(page, i.table, i.polyphony, busy_counts(i.generators));
    Ok(())
}

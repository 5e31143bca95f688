// A program's way to standard input, output and error, over the runtime that its `main` is given. Each call of `read` or
// `write` is one call of the system's; their contracts say how many bytes it moved, or that it moved none, and not which.
// A call that moved none is made again, whatever its error, which goes on after an interruption, and what keeps failing
// is an error.
#![tactic(auto)]

ghost use Rattle.std.specs.Prelude.{◌≡◌, length, ◌≤◌, min};
ghost use Rattle.console.specs.Console.{Reads, Writes};

use std::io::{Read, Write};
use std::ops::ControlFlow;

// So many calls in a row that move nothing are an error. A signal interrupts a call once and no call a hundred times in
// a row; an input that has no byte yet and does not wait for one (O_NONBLOCK) is an error that is said.
const TRIES: u32 = 100;

// Standard input can't be read.
#[derive(Clone, Copy)]
pub struct Unreadable;

// A page that was not taken whole: so many of its first bytes were, and no more are.
#[derive(Clone, Copy)]
pub struct Cut {
    pub taken: usize,
}

// Waits for bytes on standard input, and takes those that are there, as far as the buffer has room: so many came, one at
// least, and stand at the buffer's start, or None at the input's end.
pub fn read(rt: &HostRuntime, buffer: &mut [u8]) -> Result<Option<usize>, Unreadable>
    ensures { Reads buffer.new result }
{
    let mut input = rt.stdin();
    for _ in 0..TRIES {
        if let Ok(n) = input.read(buffer) {
            if n == 0 {
                return Ok(None);
            }
            return Ok(Some(n));
        }
    }
    Err(Unreadable)
}

// How many bytes a write took of these: one at least, or none if no call took any.
fn write_some<W: Write>(output: &mut W, bytes: &[u8]) -> usize
    ensures { result ≤ length bytes.now }
{
    for _ in 0..TRIES {
        if let Ok(taken) = output.write(bytes) {
            if 0 < taken {
                return taken;
            }
        }
    }
    0
}

fn write_all<W: Write>(output: &mut W, bytes: &[u8]) -> Result<(), Cut>
    ensures { Writes (length bytes.now) result }
{
    let mut from = 0;
    // Each step is what a call took, so that no `for` fits.
    while from < bytes.len() {
        let taken = write_some(output, &bytes[from..]);
        if taken == 0 {
            return Err(Cut { taken: from });
        }
        from += taken;
    }
    Ok(())
}

// Writes the first `used` bytes of the page, or all of it if that is more than it has. What reaches the other end no
// contract can say.
fn write_first<W: Write>(output: &mut W, page: &[u8], used: usize) -> Result<(), Cut>
    ensures { Writes (min used (length page.now)) result }
{
    write_all(output, page.get(..used).unwrap_or(page))
}

// That to standard output.
pub fn write(rt: &HostRuntime, page: &[u8], used: usize) -> Result<(), Cut>
    ensures { Writes (min used (length page.now)) result }
{
    write_first(&mut rt.stdout(), page, used)
}

// That to standard error.
pub fn write_error(rt: &HostRuntime, page: &[u8], used: usize) -> Result<(), Cut>
    ensures { Writes (min used (length page.now)) result }
{
    write_first(&mut rt.stderr(), page, used)
}

// Writes a line to standard error, if that takes it, and answers the status of a program that failed.
pub fn fail(rt: &HostRuntime, line: &[u8]) -> u32
    ensures { result ≡ 1 }
{
    let _ = write_all(&mut rt.stderr(), line);
    1
}

// ---- a program's loop

// Reading or writing failed, or what was read is refused, which is told by the status.
#[derive(Clone, Copy)]
pub struct Failed;

// Where an answer on standard error fails there is no place to tell it, and the status alone says so.
impl From<Cut> for Failed {
    ghost from_gives = { λ _ e. Unit {0} };

    fn from(_cut: Cut) -> Failed {
        Failed
    }
}

// A program that reads standard input and writes standard output: what it keeps from read to read, and what it writes,
// out of a page that it is lent.
pub trait Filter: Copy {
    // Its name, which stands before an error.
    const NAME: &'static [u8];

    // Before the first read.
    fn begin(&mut self, rt: &HostRuntime, page: &mut [u8]) -> Result<(), Failed> {
        Ok(())
    }

    // The bytes of a read, and whether more are to be read.
    fn take(
        &mut self,
        rt: &HostRuntime,
        page: &mut [u8],
        bytes: &[u8],
    ) -> Result<ControlFlow<()>, Failed>;

    // What the end of the input adds.
    fn end(&mut self, rt: &HostRuntime, page: &mut [u8]) -> Result<(), Failed>;

    // Tells an error, behind the program's name.
    fn tell(&self, rt: &HostRuntime, what: &[u8]) -> Failed {
        fail(rt, Self::NAME);
        fail(rt, what);
        Failed
    }

    // Writes the first `used` bytes of the page to standard output.
    fn write_out(&self, rt: &HostRuntime, page: &[u8], used: usize) -> Result<(), Failed> {
        write(rt, page, used).map_err(|_| self.tell(rt, b": standard output takes no more\n"))
    }

    // Runs the program on an input of any length, which is read in parts that fit the input's buffer. A proved loop has
    // to end, so the reads are counted, up to a number that no input uses up. Nothing is answered for what could not be
    // read: the input did not end.
    fn run(mut self, rt: &HostRuntime, input: &mut [u8], page: &mut [u8]) -> Result<(), Failed> {
        self.begin(rt, page)?;
        for _ in 0..u64::MAX {
            match read(rt, input) {
                Ok(Some(n)) => {
                    if self.take(rt, page, &input[..n])?.is_break() {
                        return Ok(());
                    }
                }
                Ok(None) => return self.end(rt, page),
                Err(Unreadable) => {
                    return Err(self.tell(rt, b": standard input can't be read\n"));
                }
            }
        }
        Err(Failed)
    }
}

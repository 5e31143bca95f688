// The MIP table: channels by falling priority (R2.1), and the one of a start (R2.6). Who may play by a table, and how
// much, is in crate shares; a MIP message's table is made in crate mip.
// By value, for every table value and every P. Assumes nothing.
#![tactic(auto)]

ghost use Rattle.std.specs.Prelude.{◌≡◌, ◌<◌};
ghost use Rattle.table.specs.Table.{entry, start_channel, start_table};

use std::array;

// A channel, 1 to 16, and the polyphony needed by it and all listed before it.
#[repr(C)]
#[derive(Clone, Copy)]
pub struct Entry {
    pub channel: u8,
    pub value: u8,
}

// The first `count` entries, by falling priority; the others are 0. C reads the count and the entries.
#[repr(C)]
#[derive(Clone, Copy)]
pub struct Table {
    pub count: u8,
    pub entries: [Entry; 16],
}

impl Table {
    // The table of no entry.
    pub const EMPTY: Table = Table {
        count: 0,
        entries: [Entry {
            channel: 0,
            value: 0,
        }; 16],
    };

    // The starting table: channel 10 first, then the others by number, so that places 1 to 9 have their own number and
    // those behind them one more; all sixteen values are P.
    pub fn start(polyphony: u8) -> Self
        ensures { result ≡ start_table polyphony }
    {
        Table {
            count: 16,
            entries: array::from_fn(
                |i: usize| -> Entry
                    requires { i < 16 }
                    ensures { result ≡ entry (start_channel i) polyphony }
                {
                    let by_number = i as u8 + u8::from(9 < i);
                    Entry {
                        channel: if i == 0 { 10 } else { by_number },
                        value: polyphony,
                    }
                },
            ),
        }
    }
}

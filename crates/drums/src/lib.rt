// Which drums exclude each other (R5.3, R5.4), for every key value. Assumes nothing.
#![tactic(auto)]

ghost use Rattle.std.specs.Prelude.{◌≡◌};
ghost use Rattle.drums.specs.Drums.{group, excludes};

// A drum key with the number of its exclusive group.
#[derive(Clone, Copy)]
struct Drum {
    key: u8,
    group: u8,
}

const DRUMS: [Drum; 11] = [
    Drum { key: 42, group: 1 },
    Drum { key: 44, group: 1 },
    Drum { key: 46, group: 1 },
    Drum { key: 71, group: 2 },
    Drum { key: 72, group: 2 },
    Drum { key: 73, group: 3 },
    Drum { key: 74, group: 3 },
    Drum { key: 78, group: 4 },
    Drum { key: 79, group: 4 },
    Drum { key: 80, group: 5 },
    Drum { key: 81, group: 5 },
];

// The exclusive group of a key, if it has one. By number, since over a reference to the table each search keeps its early
// exits, which doubles what a drum costs.
fn group(key: u8) -> Option<u8>
    ensures { result ≡ group key }
{
    for i in 0..11 {
        let d = DRUMS[i];
        if d.key == key {
            return Some(d.group);
        }
    }
    None
}

// Whether a new note of `key` silences one of `other`: another key of the same group.
pub fn excluded(key: u8, other: u8) -> bool
    ensures { result ≡ excludes key other }
{
    let group_of_key = group(key);
    (other != key) & group_of_key.is_some() & (group(other) == group_of_key)
}

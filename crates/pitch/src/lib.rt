// The pitch of a note (R11.1 to R11.5): an octave and an entry of a table of one octave, for every key, sensitivity
// and bend.
// Assumes nothing.
#![tactic(auto)]

ghost use Rattle.std.specs.Prelude.{◌≡◌, ◌<◌, ◌/◌, ◌%◌};
ghost use Rattle.std.proofs.Math.IntN.{sub_ℕ};
ghost use Rattle.pitch.specs.Pitch.{position, entry, is_out, pitch_of};

use refusals::Refusal;

// A pitch: its entry times 2 to the power of its octave.
#[derive(Clone, Copy)]
pub struct Pitch {
    pub octave: i8,
    pub entry: u32,
}

// The entries of an octave: 65536 times the 192nd roots of 2 to the power 0 to 191, rounded down.
static ENTRIES: [u32; 192] = [
    65536, 65773, 66010, 66249, 66489, 66729, 66971, 67213, 67456, 67700, 67945, 68190, 68437,
    68685, 68933, 69182, 69432, 69684, 69936, 70189, 70442, 70697, 70953, 71209, 71467, 71725,
    71985, 72245, 72507, 72769, 73032, 73296, 73561, 73827, 74094, 74362, 74631, 74901, 75172,
    75444, 75717, 75991, 76265, 76541, 76818, 77096, 77375, 77655, 77935, 78217, 78500, 78784,
    79069, 79355, 79642, 79930, 80219, 80509, 80800, 81093, 81386, 81680, 81976, 82272, 82570,
    82868, 83168, 83469, 83771, 84074, 84378, 84683, 84989, 85297, 85605, 85915, 86225, 86537,
    86850, 87164, 87480, 87796, 88113, 88432, 88752, 89073, 89395, 89718, 90043, 90369, 90695,
    91023, 91353, 91683, 92015, 92347, 92681, 93017, 93353, 93691, 94029, 94370, 94711, 95053,
    95397, 95742, 96088, 96436, 96785, 97135, 97486, 97839, 98193, 98548, 98904, 99262, 99621,
    99981, 100343, 100706, 101070, 101435, 101802, 102170, 102540, 102911, 103283, 103657, 104031,
    104408, 104785, 105164, 105545, 105926, 106309, 106694, 107080, 107467, 107856, 108246, 108637,
    109030, 109425, 109820, 110217, 110616, 111016, 111418, 111821, 112225, 112631, 113038, 113447,
    113857, 114269, 114682, 115097, 115514, 115931, 116351, 116771, 117194, 117618, 118043, 118470,
    118898, 119328, 119760, 120193, 120628, 121064, 121502, 121941, 122382, 122825, 123269, 123715,
    124162, 124611, 125062, 125514, 125968, 126424, 126881, 127340, 127801, 128263, 128727, 129192,
    129660, 130129, 130599,
];

// The entry at a remainder.
fn entry_at(i: u32) -> u32
    requires { i < 192 }
    ensures { result ≡ entry i }
{
    ENTRIES[i as usize]
}

// The position, counted from two octaves below 0: never negative, so that a quotient rounds down.
fn raised(key: u8, sensitivity: u8, bend: u16) -> u32
    requires { (key < 128) × (sensitivity < 25) × (bend < 16384) }
    ensures { (sub_ℕ result 384 ≡ position key sensitivity bend) × (result < 2880) }
{
    let range = 16 * (sensitivity as u32);
    384 + 16 * (key as u32) - range + range * (bend as u32) / 8192
}

// The octave of a position counted from two octaves below.
fn octave(n: u32) -> i8
    requires { n < 2880 }
    ensures { result ≡ sub_ℕ (n / 192) 2 }
{
    (n / 192) as i8 - 2
}

// Whether MIDI does not have the key, the sensitivity or the bend.
fn is_out(key: u8, sensitivity: u8, bend: u16) -> bool
    ensures { result ≡ is_out key sensitivity bend }
{
    127 < key || 24 < sensitivity || 16383 < bend
}

// The pitch of a key, with the sensitivity (0 to 24 semitones) and the bend (0 to 16383, centre 8192) of its channel.
pub fn pitch_of(key: u8, sensitivity: u8, bend: u16) -> Result<Pitch, Refusal>
    ensures { result ≡ pitch_of key sensitivity bend }
{
    if is_out(key, sensitivity, bend) {
        return Err(Refusal::PitchOutOfRange);
    }
    let n = raised(key, sensitivity, bend);
    Ok(Pitch {
        octave: octave(n),
        entry: entry_at(n % 192),
    })
}

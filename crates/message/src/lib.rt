// What a channel message says (R1.12, R6.1, R6.5), for every status and data byte value. Assumes nothing.
#![tactic(auto)]

ghost use Rattle.std.specs.Prelude.{◌≡◌};
ghost use Rattle.message.specs.Message.{decode};

// A complete channel message. A channel is 1 to 16.
#[derive(Clone, Copy, PartialEq, Eq)]
pub enum Message {
    // Note-on, velocity above 0: channel, key.
    NoteOn(u8, u8),
    // Note-off, or note-on with velocity 0: channel, key.
    NoteOff(u8, u8),
    // A controller: channel, its number, its value.
    Control(u8, u8, u8),
    // Program change: channel, program.
    Program(u8, u8),
    // Pitch bend: channel, MSB, LSB.
    Bend(u8, u8, u8),
    // Key or channel pressure.
    Other,
}

// The message of a status byte and its data bytes, the second 0 where the kind has one.
#[tactic(auto, unfolding(crate::specs::Message::decode))]
pub fn read(status: u8, a: u8, b: u8) -> Message
    ensures { result ≡ decode status a b }
{
    let channel = status % 16 + 1;
    match status / 16 {
        8 => Message::NoteOff(channel, a),
        9 if b == 0 => Message::NoteOff(channel, a),
        9 => Message::NoteOn(channel, a),
        11 => Message::Control(channel, a, b),
        12 => Message::Program(channel, a),
        14 => Message::Bend(channel, b, a),
        _ => Message::Other,
    }
}

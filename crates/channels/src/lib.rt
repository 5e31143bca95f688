// What a channel remembers: its thirteen numbers (R1.8, R1.9), program change and pitch bend (R6.5), and which bank
// makes a rhythm channel (R6.15); controllers are in crate controllers. By value, for every value. Assumes nothing.
#![tactic(auto)]

ghost use Rattle.std.specs.Prelude.{◌≡◌};
ghost use Rattle.channels.specs.Channel.{fresh, fresh_rhythm, with_program, with_bend, rhythm_by};

#[repr(C)]
#[derive(Clone, Copy)]
pub struct Channel {
    pub program: u8,
    pub modulation: u8,
    pub volume: u8,
    pub pan: u8,
    pub expression: u8,
    pub hold: u8,
    pub rpn_msb: u8,
    pub rpn_lsb: u8,
    pub bend_msb: u8,
    pub bend_lsb: u8,
    pub sensitivity: u8,
    pub bank_msb: u8,
    pub bank_lsb: u8,
}

impl Channel {
    // The numbers of a fresh channel that a reset of the controllers restores too, and those that it does not.
    pub const PROGRAM: u8 = 0;

    pub const MODULATION: u8 = 0;

    pub const VOLUME: u8 = 100;

    pub const PAN: u8 = 64;

    pub const EXPRESSION: u8 = 127;

    pub const HOLD: u8 = 0;

    pub const RPN: u8 = 127;

    pub const BEND_MSB: u8 = 64;

    pub const BEND_LSB: u8 = 0;

    pub const SENSITIVITY: u8 = 2;
    // The largest bend sensitivity, in semitones.
    pub const SENSITIVITY_LIMIT: u8 = 24;
    // The MSB of the banks of General MIDI 2 for melody and for rhythm, and the LSB of a fresh channel.
    pub const MELODY_BANK: u8 = 121;

    pub const RHYTHM_BANK: u8 = 120;

    pub const BANK_LSB: u8 = 0;

    #[tactic(auto, unfolding(crate::specs::Channel::fresh))]
    pub fn fresh() -> Self
        ensures { result ≡ fresh }
    {
        Channel {
            program: Channel::PROGRAM,
            modulation: Channel::MODULATION,
            volume: Channel::VOLUME,
            pan: Channel::PAN,
            expression: Channel::EXPRESSION,
            hold: Channel::HOLD,
            rpn_msb: Channel::RPN,
            rpn_lsb: Channel::RPN,
            bend_msb: Channel::BEND_MSB,
            bend_lsb: Channel::BEND_LSB,
            sensitivity: Channel::SENSITIVITY,
            bank_msb: Channel::MELODY_BANK,
            bank_lsb: Channel::BANK_LSB,
        }
    }

    // Channel 10's: its bank is that of the drums.
    #[tactic(auto, unfolding(crate::specs::Channel::fresh_rhythm))]
    pub fn fresh_rhythm() -> Self
        ensures { result ≡ fresh_rhythm }
    {
        Channel {
            bank_msb: Channel::RHYTHM_BANK,
            ..Channel::fresh()
        }
    }

    pub fn program(self, program: u8) -> Self
        ensures { result ≡ with_program self program }
    {
        Channel { program, ..self }
    }

    pub fn bend(self, msb: u8, lsb: u8) -> Self
        ensures { result ≡ with_bend self msb lsb }
    {
        Channel {
            bend_msb: msb,
            bend_lsb: lsb,
            ..self
        }
    }

    // Whether a program change makes a rhythm channel of one that was one or not: by its bank's MSB; the LSB and the
    // program have no part in it.
    #[tactic(auto, unfolding(crate::specs::Channel::rhythm_by))]
    pub fn rhythm_by(self, was: bool) -> bool
        ensures { result ≡ rhythm_by self.bank_msb was }
    {
        match self.bank_msb {
            Channel::RHYTHM_BANK => true,
            Channel::MELODY_BANK => false,
            _ => was,
        }
    }
}

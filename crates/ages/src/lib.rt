// The order of assignment among the sounding generators (R1.6, R1.7): a list of their numbers, the oldest first. A
// list and no counter, so that no history is too long for it. By value, for every value. Assumes nothing.
#![tactic(auto)]

ghost use Rattle.std.specs.Prelude.{◌≡◌};
ghost use Rattle.ages.specs.Ages.{without, pushed, newest};

// The first `count` numbers are the sounding generators, the oldest first; the others are 0. C reads the count and the
// numbers.
#[repr(C)]
#[derive(Clone, Copy)]
pub struct Ages {
    pub count: u8,
    pub generator: [u8; 64],
}

impl Ages {
    // The order without the generators that have a mark.
    pub fn without(self, marks: [u8; 256]) -> Self
        ensures { result ≡ without self marks }
    {
        let n = usize::from(self.count.min(64));
        let mut generator = [0u8; 64];
        let mut count: u8 = 0;
        for g in &self.generator[..n] {
            // Put behind those that stay even if it does not: the next one that stays replaces it.
            generator[usize::from(count)] = *g;
            count += u8::from(marks[usize::from(*g)] == 0);
        }
        if count < 64 {
            generator[usize::from(count)] = 0;
        }
        Ages { count, generator }
    }

    // The order with generator g assigned anew: the newest.
    #[tactic(auto, unfolding(crate::specs::Ages::newest))]
    pub fn newest(self, g: u8) -> Self
        ensures { result ≡ newest self g }
    {
        if 64 <= g {
            return self;
        }
        let mut mark = [0u8; 256];
        mark[usize::from(g)] = 1;
        self.without(mark).push(g)
    }

    #[tactic(auto, unfolding(crate::specs::Ages::pushed))]
    fn push(self, g: u8) -> Self
        ensures { result ≡ pushed self g }
    {
        let mut next = self;
        if self.count < 64 {
            next.generator[usize::from(self.count)] = g;
            next.count += 1;
        }
        next
    }
}

ghost use Rattle.std.specs.Prelude.{◌≡◌, ◌<◌};
ghost use Rattle.schedule_maker.specs.Draws.{next_state, drawn_in, choice_from, after_choice};

/// What is drawn for a call.
#[derive(Clone, Copy)]
pub struct Choice {
    /// 10 to 13.
    pub client: u32,
    /// 1 to 4.
    pub file: u64,
    /// 0 to 3.
    pub object: u64,
    /// A place in the object, below 4,000.
    pub at: u32,
    pub is_read: bool,
}

/// The numbers that a seed determines.
#[derive(Drop)]
pub struct Draws {
    pub state: u64,
}

impl Draws {
    /// The next number, below the bound.
    #[tactic(auto, unfolding(crate::specs::Draws::next_state, crate::specs::Draws::drawn_in))]
    fn below(&mut self, bound: u64) -> u64
        requires { 0 < bound }
        ensures state { self.new.state ≡ next_state self.old.state }
        ensures value { result ≡ drawn_in self.new.state bound }
        ensures below { result < bound }
    {
        self.state = self
            .state
            .wrapping_mul(6_364_136_223_846_793_005)
            .wrapping_add(1_442_695_040_888_963_407);
        (self.state >> 33) % bound
    }

    /// What is drawn for the next call.
    pub fn choice(&mut self) -> Choice
        ensures choice { result ≡ choice_from self.old.state }
        ensures state { self.new.state ≡ after_choice self.old.state }
    {
        let client = 10 + self.below(4) as u32;
        let file = 1 + self.below(4);
        let object = self.below(4);
        let at = self.below(4000) as u32;
        let is_read = self.below(3) == 0;
        Choice {
            client,
            file,
            object,
            at,
            is_read,
        }
    }
}

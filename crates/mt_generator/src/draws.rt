//! Numbers drawn one after another.
ghost use Rattle.std.specs.Prelude.{◌≡◌, ◌<◌};
ghost use Rattle.mt_generator.specs.Draws.{drawn};

/// The state from which the next number is drawn.
#[derive(Drop)]
pub(crate) struct Draws {
    state: u64,
}

impl Draws {
    /// The draws that begin at a seed.
    pub(crate) fn from_seed(seed: u64) -> Draws
        ensures state { result.state ≡ seed }
    {
        Draws { state: seed }
    }

    /// A number below `count`.
    #[tactic(auto, unfolding(crate::specs::Draws::drawn))]
    pub(crate) fn below(&mut self, count: u32) -> u32
        requires some { 0 < count }
        ensures number { result ≡ (drawn self.old.state count).0 }
        ensures below { result < count }
        ensures state { self.new.state ≡ (drawn self.old.state count).1 }
    {
        self.state = self
            .state
            .wrapping_mul(6_364_136_223_846_793_005)
            .wrapping_add(1_442_695_040_888_963_407);
        (self.state >> 33) as u32 % count
    }
}

// What is drawn for a job.
ghost use Rattle.std.specs.Prelude.{◌≡◌, ◌<◌, ◌≤◌, ◌^◌};
ghost use Rattle.tetri_make.specs.Generated.{draws_in, drawn, next};

/// A linear congruential generator of whole numbers below 2^31, with the factor and the summand of the sample `rand` in the
/// C standard.
#[derive(Drop)]
pub(crate) struct Generator {
    pub(crate) state: u32,
}

/// What is drawn for one job.
#[derive(Clone, Copy)]
pub(crate) struct Drawn {
    /// The shape of its request, below 3.
    pub(crate) shape: u32,
    /// How many nodes it wants, 1 to 3.
    pub(crate) nodes: u32,
    /// For how many slots, 1 to 3.
    pub(crate) slots: u32,
    /// What it is worth, 1 to 20.
    pub(crate) worth: u32,
    /// One more than how many slots late it is, below 3.
    pub(crate) late: u32,
}

impl Generator {
    /// Draws a number below `limit`.
    fn draw(&mut self, limit: u32) -> u32
        requires { 1 ≤ limit }
        ensures value { result ≡ drawn self.old.state limit }
        ensures below { result < limit }
        ensures next { self.new.state ≡ next self.old.state }
    {
        let next = (1_103_515_245 * u64::from(self.state) + 12_345) % 2_147_483_648;
        self.state = next as u32;
        self.state / 65_536 % limit
    }

    /// Draws what a job wants.
    pub(crate) fn draw_job(&mut self) -> Drawn
        ensures value { result ≡ draws_in self.old.state }
        ensures shape { result.shape < 3 }
        ensures nodes { (1 ≤ result.nodes) × (result.nodes ≤ 3) }
        ensures slots { (1 ≤ result.slots) × (result.slots ≤ 3) }
        ensures worth { (1 ≤ result.worth) × (result.worth ≤ 20) }
        ensures late { result.late < 3 }
        ensures next { self.new.state ≡ next (next (next (next (next self.old.state)))) }
    {
        let shape = self.draw(3);
        let nodes = 1 + self.draw(3);
        let slots = 1 + self.draw(3);
        let worth = 1 + self.draw(20);
        let late = self.draw(3);
        Drawn {
            shape,
            nodes,
            slots,
            worth,
            late,
        }
    }
}

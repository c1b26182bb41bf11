// Which cycles are asked for.
ghost use Rattle.std.specs.Prelude.{◌≡◌};
ghost use Rattle.tetri_priced.specs.Wanted.{is_wanted};

/// Which cycles are told, by their numbers, both ends included, and whether their prices are told too.
#[derive(Clone, Copy, Debug, PartialEq, Eq)]
pub struct Wanted {
    pub from: u32,
    pub to: u32,
    pub prices: bool,
}

impl Wanted {
    /// All cycles with their prices.
    pub const ALL: Wanted = Wanted {
        from: 0,
        to: u32::MAX,
        prices: true,
    };

    /// Whether the cycle of this number is told.
    pub fn has(&self, number: u32) -> bool
        ensures { result ≡ is_wanted self.now number }
    {
        self.from <= number && number <= self.to
    }
}

//! The random source of the Shuffle.
ghost use Rattle.std.specs.Prelude.{◌≡◌};
ghost use Rattle.shuffle.specs.SplitMix.{advanced, drawn};

/// Vigna's public generator of 64-bit numbers.
#[derive(Clone, Copy)]
pub struct SplitMix64 {
    state: u64,
}

impl SplitMix64 {
    /// The generator started at a seed.
    pub fn new(seed: u64) -> SplitMix64
        ensures { result.state ≡ seed }
    {
        SplitMix64 { state: seed }
    }

    /// The next number.
    pub fn draw(&mut self) -> u64
        ensures gives { result ≡ drawn (advanced self.old.state) }
        ensures moves { self.new.state ≡ advanced self.old.state }
    {
        self.state = self.state.wrapping_add(0x9E37_79B9_7F4A_7C15);
        let a = self.state;
        let b = (a ^ (a >> 30)).wrapping_mul(0xBF58_476D_1CE4_E5B9);
        let c = (b ^ (b >> 27)).wrapping_mul(0x94D0_49BB_1331_11EB);
        c ^ (c >> 31)
    }
}

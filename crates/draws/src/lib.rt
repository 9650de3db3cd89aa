// The draws of document 02's load: xorshift of 32 bits, from a seed. Every function is proved, nothing is assumed, and no public function
// has a `requires`.
#![tactic(auto)]

ghost use Rattle.std.specs.Prelude.{◌≡◌};
ghost use Rattle.draws.specs.Draws.{NewGeneratorPost, after, default_seed, draw};

use config::Refusal;

// The seed, or the last draw.
#[derive(Clone, Copy, PartialEq, Eq, Debug)]
pub struct Generator(u32);

// A draw, and the generator that goes on from it.
#[derive(Clone, Copy, PartialEq, Eq, Debug)]
pub struct Next {
    pub draw: u32,
    pub generator: Generator,
}

impl Generator {
    // The default seed.
    pub const DEFAULT_SEED: u32 = 2_463_534_242;

    // The generator of a seed: question 20, whether it is other than 0.
    pub fn new(seed: u32) -> Result<Generator, Refusal>
        ensures { NewGeneratorPost seed result }
    {
        if seed == 0 {
            return Err(Refusal::Seed);
        }
        Ok(Generator(seed))
    }

    // The generator of the default seed, where none is given.
    pub fn default() -> Generator
        ensures { result.0 ≡ default_seed }
    {
        Generator(Generator::DEFAULT_SEED)
    }

    // The next draw: shifts left 13, right 17, left 5.
    pub fn next(self) -> Next
        ensures { result ≡ after (draw self.0) }
    {
        let a = self.0 ^ (self.0 << 13);
        let b = a ^ (a >> 17);
        let c = b ^ (b << 5);
        Next {
            draw: c,
            generator: Generator(c),
        }
    }
}

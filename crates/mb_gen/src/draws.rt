//! The draws of a seed.

ghost use Rattle.std.specs.Prelude.{◌≡◌};
ghost use Rattle.mb_gen.specs.Draws.{draw_at, next, seeded};
ghost use Rattle.mb_gen.specs.Seen.{generator_seen};

use rand_core::SeedableRng;
use rand_core::utils::NextWord;
use rand_pcg::Lcg64Xsh32;

/// The generator of a seed.
pub(crate) fn seeded(seed: u64) -> Lcg64Xsh32
    ensures { generator_seen result ≡ seeded seed }
{
    Lcg64Xsh32::seed_from_u64(seed)
}

/// The next draw.
pub(crate) fn draw(generator: &mut Lcg64Xsh32) -> u32
    ensures drawn { result ≡ draw_at (generator_seen generator.old).state }
    ensures next { generator_seen generator.new ≡ next (generator_seen generator.old) }
{
    generator.next_word()
}

//! A horizon in one word.

ghost use Rattle.std.specs.Prelude.{◌≡◌, ℕ};
ghost use Rattle.turn.specs.Rule.{IsHorizon};

// What one of the upper half counts.
const HALF: u64 = 1 << 32;

/// The oldest snapshot in the upper half, the newest in the lower one.
pub(crate) fn word_of(horizon: (u32, u32)) -> u64
    ensures { IsHorizon result horizon }
{
    u64::from(horizon.0) * HALF + u64::from(horizon.1)
}

pub(crate) fn horizon_in(word: u64) -> (u32, u32)
    ensures { (h : ℕ × ℕ) → IsHorizon word h → result ≡ h }
{
    ((word / HALF) as u32, (word % HALF) as u32)
}

ghost use Rattle.std.specs.Prelude.{◌≡◌, ◌+◌, ◌<◌, ◌^◌, true, false};

// Counts one more where it counts, as far as a number goes.
pub fn count(seen: &mut u64, counts: bool)
    ensures passes { counts ≡ false → seen.new ≡ seen.old }
    ensures counts { counts ≡ true → seen.old + 1 < 2 ^ 64 → seen.new ≡ seen.old + 1 }
{
    *seen = seen.saturating_add(u64::from(counts));
}

ghost use Rattle.std.specs.Prelude.{◌≡◌};
ghost use Rattle.store.specs.Histories.{KeptSinceClear, FewSinceClear};

use crate::store::Store;

// How many positions a store has kept since its last clear. Each was not covered when it was told and is covered since, so they
// are pairwise different.
pub fn kept_since_clear<S: Store>(store: &S) -> u32
    ensures count { result ≡ (S.meaning store.now).kept }
    ensures different { KeptSinceClear (S.meaning store.now) result }
    ensures few { FewSinceClear (S.meaning store.now) result }
{
    store.kept()
}

ghost use Rattle.std.specs.Prelude.{◌≡◌, ℕ, ◌+◌, ◌^◌, ◌<◌, ◌≤◌, min, Decides, MatchOption, count_ones};
ghost use Rattle.sets.specs.Sets.{Has, Inside, Apart, Within, minus, Lowest, Marks};

// Whether each member of `a` is one of `b`.
pub fn inside(a: u64, b: u64) -> bool
    ensures { Decides result (Inside a b) }
{
    a & b == a
}

// Whether `a` and `b` have no member in common.
pub fn apart(a: u64, b: u64) -> bool
    ensures { Decides result (Apart a b) }
{
    a & b == 0
}

// What `a` has and `b` has not.
pub fn without(a: u64, b: u64) -> u64
    ensures is { result ≡ minus a b }
    ensures members { Marks result (λ k. Has a k × (Has b k → ⊥)) }
{
    a & !b
}

// A set without one number.
pub fn without_one(set: u64, member: u32) -> u64
    ensures { result ≡ minus set (2 ^ member) }
{
    if member < 64 {
        without(set, 1 << member)
    } else {
        set
    }
}

// The set of one number, or the empty set where a mask has no such bit.
pub fn single(member: u32) -> u64
    ensures { Marks result (λ k. (k ≡ member) × (k < 64)) }
{
    if member < 64 { 1 << member } else { 0 }
}

// The lowest member.
pub fn lowest(set: u64) -> Option<u32>
    ensures { MatchOption result (set ≡ 0) (λ k. Lowest set k) }
{
    (set != 0).then(|| set.trailing_zeros())
}

// A set without its lowest member.
pub fn rest(set: u64) -> u64
    ensures members { Marks result (λ k. Has set k × (Lowest set k → ⊥)) }
    ensures fewer { (set ≡ 0 → ⊥) → count_ones result + 1 ≡ count_ones set }
{
    if set == 0 { 0 } else { set & (set - 1) }
}

// How many members a set has.
pub fn size(set: u64) -> u32
    ensures { result ≡ count_ones set }
{
    set.count_ones()
}

// The set of all numbers below `m`, as far as a mask has them.
pub fn all_below(m: usize) -> u64
    ensures { Marks result (λ k. k < min m 64) }
{
    if m >= 64 { u64::MAX } else { (1 << m) - 1 }
}

// Whether each member is below `m`.
pub fn within(set: u64, m: usize) -> bool
    ensures { Decides result (Within m set) }
{
    m >= 64 || set >> m == 0
}

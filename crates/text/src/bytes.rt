ghost use Rattle.std.specs.Prelude.{◌≡◌, ℕ, ◌+◌, ◌<◌, ◌≤◌, length, take, drop};
ghost use Rattle.std.specs.Int.Digits.{number_from_digits};
ghost use Rattle.text.specs.Bytes.{bytes_of, set_in, put};
ghost use Rattle.text.specs.Texts.{effect_in};

use problem::EffectRow;

// The bytes from `at` on, so many as the array has.
fn bytes_at<const N: usize>(body: &[u8], at: usize) -> [u8; N]
    requires { at + N ≤ length body.now }
    ensures { result ≡ take N (drop at body.now) }
{
    *body[at..].first_chunk().unwrap()
}

// The number whose eight bytes begin at `at`.
pub(crate) fn set_at(body: &[u8], at: usize) -> u64
    requires { at + 8 ≤ length body.now }
    ensures { result ≡ set_in body.now at }
{
    u64::from_be_bytes(bytes_at(body, at))
}

// The effect whose three sets are the body.
pub(crate) fn effect_in(body: &[u8]) -> EffectRow
    requires { length body.now ≡ 24 }
    ensures { result ≡ effect_in body.now }
{
    EffectRow {
        condition: set_at(body, 0),
        add: set_at(body, 8),
        delete: set_at(body, 16),
    }
}

// The number whose four bytes begin at `at`.
pub(crate) fn word_at(body: &[u8], at: usize) -> u32
    requires { at + 4 ≤ length body.now }
    ensures { result ≡ number_from_digits 256 (take 4 (drop at body.now)) }
{
    u32::from_be_bytes(bytes_at(body, at))
}

// Writes bytes from `at` on.
pub(crate) fn put_bytes(out: &mut [u8], at: usize, bytes: &[u8])
    requires { at + length bytes.now ≤ length out.old }
    ensures { out.new ≡ put out.old at bytes.now }
{
    out[at..at + bytes.len()].copy_from_slice(bytes);
}

// Writes the eight bytes of `set` from `at` on.
pub(crate) fn put_set(out: &mut [u8], at: usize, set: u64)
    requires { at + 8 ≤ length out.old }
    ensures { out.new ≡ put out.old at (bytes_of 8 set) }
{
    put_bytes(out, at, &set.to_be_bytes());
}

// The next of a row of scattered numbers: the same one as in the plain Rust programs.
pub(crate) fn scatter(x: u64) -> u64 {
    let a = x ^ (x << 13);
    let b = a ^ (a >> 7);
    b ^ (b << 17)
}

// A row of scattered numbers, without end.
#[derive(Drop)]
pub(crate) struct Scattered {
    latest: u64,
}

// The row that begins behind a number.
pub(crate) fn scattered_behind(seed: u64) -> Scattered {
    Scattered { latest: seed }
}

impl Iterator for Scattered {
    type Item = u64;

    fn next(&mut self) -> Option<u64> {
        self.latest = scatter(self.latest);
        Some(self.latest)
    }
}

// A level as it is read: its facts, and for each of 64 atoms the set of those exclusive with it.
#[derive(Clone, Copy)]
pub(crate) struct Layer<'a> {
    pub(crate) facts: u64,
    pub(crate) exclusive: &'a [u64; 64],
}

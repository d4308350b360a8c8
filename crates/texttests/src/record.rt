use arrayvec::ArrayVec;

// A text that a case puts together. It lies on the stack, since these cases use no heap; what finds no room is left out.
pub type Sheet = ArrayVec<u8, 2048>;

// Puts bytes at the end of a text.
pub fn put_bytes(text: &mut Sheet, bytes: &[u8]) {
    let _ = text.try_extend_from_slice(bytes);
}

// Puts a kind, and sets behind it, at the end of a text.
pub fn put_record(text: &mut Sheet, kind: u8, sets: &[u64]) {
    put_bytes(text, &[kind]);
    for set in sets {
        put_bytes(text, &set.to_be_bytes());
    }
}

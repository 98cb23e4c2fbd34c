// The lent buffers: what they hold before a call, and what they must hold behind it.

// The byte at an index before a call: never 0 or 1, and never that of a neighbour.
fn pattern(i: usize) -> u8 {
    (2 + i % 253) as u8
}

// Fills a buffer as it is lent.
pub fn fill(w: &mut [u8]) {
    for (i, byte) in w.iter_mut().enumerate() {
        *byte = pattern(i);
    }
}

// Whether the bytes from an index on are as they were lent.
pub fn untouched(w: &[u8], from: usize) -> bool {
    w.iter()
        .enumerate()
        .skip(from)
        .all(|(i, byte)| *byte == pattern(i))
}

// Whether every byte is 0.
pub fn cleared(w: &[u8]) -> bool {
    w.iter().all(|byte| *byte == 0)
}

// Whether the buffer holds these bytes at its start, and is untouched behind them.
pub fn holds(w: &[u8], given: &[u8]) -> bool {
    w.starts_with(given) && untouched(w, given.len())
}

// Writes books into a buffer. What has no room is left off, so that no caller has to show that there is room.
pub fn byte(b: &mut [u8], at: usize, v: u8) -> usize {
    if b.len() <= at {
        return at;
    }
    b[at] = v;
    at + 1
}

pub fn bytes(b: &mut [u8], at: usize, text: &[u8]) -> usize {
    let mut next = at;
    for &v in text {
        next = byte(b, next, v);
    }
    next
}

// The same bytes n times.
pub fn repeat(b: &mut [u8], at: usize, text: &[u8], n: usize) -> usize {
    let mut next = at;
    for _ in 0..n {
        next = bytes(b, next, text);
    }
    next
}

// A call of a chain for every packet, n times.
pub fn calls(b: &mut [u8], at: usize, called: u8, n: usize) -> usize {
    let mut next = at;
    for _ in 0..n {
        next = byte(b, next, 6);
        next = byte(b, next, called);
        next = byte(b, next, 0);
    }
    next
}

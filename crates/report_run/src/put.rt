// Writes bytes into a buffer. What has no room is left off, so that no caller has to show that there is room.
fn byte(b: &mut [u8], at: usize, v: u8) -> usize {
    if b.len() <= at {
        return at;
    }
    b[at] = v;
    at + 1
}

pub fn bytes(b: &mut [u8], at: usize, text: &[u8]) -> usize {
    let mut next = at;
    for &v in text {
        next = byte(b, next, v);
    }
    next
}

// Ports without ranges.
pub fn ports(b: &mut [u8], at: usize, from: u8, to: u8) -> usize {
    let mut next = at;
    for port in from..to {
        next = bytes(b, next, &[port, 0]);
    }
    next
}

// The entry's bytes, then the chains from 1 on of which each calls the next twice, and the bytes of the last chain and what is behind it.
pub fn doubling(b: &mut [u8], at: usize, entry: &[u8], chains: u8, last: &[u8]) -> usize {
    let mut next = bytes(b, at, entry);
    for called in 2..chains {
        next = bytes(b, next, &[2, 6, called, 0, 6, called, 0]);
    }
    bytes(b, next, last)
}

// Links of 32 bits between positions. A link is the position plus one, and 0 ends the chain.

// The greatest count of positions that links can name.
pub(crate) const MOST_LINKED: usize = u32::MAX as usize;

// The length at which a chain is long. Only adversarial pairs reach it in a bucket.
pub(crate) const LONG: u32 = 24;

// Whether the chain that begins with a link is long, where `next` has the link after each position. Hint.
pub(crate) fn is_long(first: u32, next: &[u32]) -> bool {
    let mut link = first;
    for _ in 0..LONG {
        if link == 0 {
            return false;
        }
        link = match next.get((link - 1) as usize) {
            Some(next) => *next,
            None => 0,
        };
    }
    true
}

// Sizes as text: how many, then the sizes, each after a space.
use limits::UNKNOWN;
use text::{put_bytes, put_decimal};

// The text, to the front of the result. Answers how many bytes it has.
pub(crate) fn list_sizes(sizes: &[u64], res: &mut [u8]) -> Option<usize> {
    let mut end = put_decimal(sizes.len() as u64, &mut *res, 0)?;
    for &size in sizes {
        end = put_size(size, &mut *res, end)?;
    }
    Some(end)
}

fn put_size(size: u64, res: &mut [u8], at: usize) -> Option<usize> {
    let start = put_bytes(b" ", &mut *res, at)?;
    if size == UNKNOWN {
        return put_bytes(b"?", res, start);
    }
    put_decimal(size, res, start)
}

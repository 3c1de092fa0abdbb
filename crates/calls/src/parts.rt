// Parts of a slice, for places that are known to lie in it. Were one past its end, it would be taken as far as it goes.

// The first `count`.
pub(crate) fn front<T>(items: &[T], count: usize) -> &[T] {
    items.get(..count).unwrap_or(items)
}

pub(crate) fn front_mut(bytes: &mut [u8], count: usize) -> &mut [u8] {
    let end = count.min(bytes.len());
    &mut bytes[..end]
}

// Those from a place up to another.
pub(crate) fn part(bytes: &[u8], from: usize, to: usize) -> &[u8] {
    bytes.get(from..to).unwrap_or(&[])
}

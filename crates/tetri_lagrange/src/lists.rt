// Numbers at places that may not be there, and parts of lists.

/// The number at this place, or 0.
#[inline]
pub fn at(list: &[u64], place: usize) -> u64 {
    if place < list.len() { list[place] } else { 0 }
}

/// Puts a number at this place, where there is one.
#[inline]
pub fn put(list: &mut [u64], place: usize, value: u64) {
    if place < list.len() {
        list[place] = value;
    }
}

/// What stands between two places, or nothing where they are not in order and there.
#[inline]
pub fn between<T>(list: &[T], from: usize, to: usize) -> &[T] {
    if from <= to && to <= list.len() {
        &list[from..to]
    } else {
        &list[..0]
    }
}

/// Makes all numbers 0.
pub fn clear(list: &mut [u64]) {
    for value in list.iter_mut() {
        *value = 0;
    }
}

// Parts of slices that end where the slice does, so that no caller has to know how long it is. They are no
// twins: one gives the front to read, one to write, one the rest.

pub(crate) fn front<T>(items: &[T], count: usize) -> &[T] {
    &items[..count.min(items.len())]
}

pub(crate) fn front_mut<T>(items: &mut [T], count: usize) -> &mut [T] {
    let length = items.len();
    &mut items[..count.min(length)]
}

pub(crate) fn behind<T>(items: &[T], count: usize) -> &[T] {
    &items[count.min(items.len())..]
}

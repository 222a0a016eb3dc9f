// The elements of a slice, which only clauses read.
ghost use Rattle.std.specs.Prelude.{◌≡◌, List};
ghost use Rattle.std.specs.Borrow.{ftrue};

use std::marker::{Model, PhantomData};

/// A slice's elements as clauses see them. It has no bytes and owns nothing.
#[derive(Drop)]
pub(crate) struct SliceView<T> {
    marker: PhantomData<T>,
    pub(crate) ghost items: { List T },
}

impl<T> Model for SliceView<T> {
    ghost also_owns = { λ _. ftrue };
}

impl<T> SliceView<T> {
    pub(crate) fn of(xs: &[T]) -> SliceView<T>
        ensures { result.items ≡ xs.now }
    {
        let _ = xs;
        SliceView {
            marker: PhantomData,
        }
    }
}

// What each step on the table tells. These types are for the proofs alone.
ghost use Rattle.device_lock.specs.Steps.{drew, looked, logs, learned, served};
ghost use Rattle.device_lock.specs.Views.{split_left, split_right, joined_view, spent_view};

use crate::kept::{Kept, Names};
use crate::view::View;
use atomic_table::{Join, Play, Split};
use std::marker::PhantomData;

pub struct Draw;

impl<T, I> Play<Option<T>, View<I>> for Draw {
    ghost then = { drew };
}

pub struct Look;

impl<T: Kept> Play<Option<T>, View<T::Item>> for Look {
    ghost then = { looked T.caller T.stands };
}

pub struct Log<W> {
    names: PhantomData<W>,
}

impl<T: Kept, W: Names<T::Item>> Play<Option<T>, View<T::Item>> for Log<W> {
    ghost then = { logs T.caller W.item };
}

pub struct Learn;

impl<T: Kept> Play<Option<T>, View<T::Item>> for Learn {
    ghost then = { learned T.caller };
}

pub struct Serve;

impl<T, I> Play<Option<T>, View<I>> for Serve {
    ghost then = { served };
}

pub struct Cut;

impl<I> Split<View<I>> for Cut {
    ghost left = { split_left };

    ghost right = { split_right };
}

pub struct Glue;

impl<I> Join<View<I>> for Glue {
    ghost both = { joined_view };

    ghost spent = { spent_view };
}

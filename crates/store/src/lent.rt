// What a borrowed store's type says of it: how many elements each array has, and how large each number can be. Nothing is done.
ghost use Rattle.store.specs.Shape.{StoreShape};

use crate::Store;

pub fn store_shaped(store: &Store)
    ensures { StoreShape store.now }
{}

// Lists that copies share.

ghost use Rattle.std.specs.Prelude.{◌≡◌, IfOk};
ghost use Rattle.kex_code.specs.Shared.{shared_items};

use crate::memory::Memory;
use std::sync::Arc;

/// A list that stays as it is. Where its owners are counted, each copy is one more of them; alone,
/// it has one owner and `copy` fails.
#[derive(Drop)]
pub enum Shared<T> {
    Counted(Arc<Vec<T>>),
    Alone(Vec<T>),
}

impl<T: Drop> Shared<T> {
    /// The items, with their owners counted if there is memory for the count.
    pub fn new(items: Vec<T>) -> Shared<T>
        ensures { shared_items result ≡ items.items }
    {
        match Arc::new(*items.allocator(), items) {
            Ok(items) => Shared::Counted(items),
            Err(failed) => Shared::Alone(failed.value),
        }
    }

    /// The items, in their order.
    pub fn as_slice(&self) -> &[T]
        ensures { result.now ≡ shared_items self.now }
    {
        match self {
            Shared::Counted(items) => items.as_slice(),
            Shared::Alone(items) => items.as_slice(),
        }
    }

    /// One more owner of the same items. Fails where they are alone, or no more owners can be
    /// counted.
    pub fn copy(&self) -> Result<Shared<T>, Memory>
        ensures { IfOk result (λ s. shared_items s ≡ shared_items self.now) }
    {
        match self {
            Shared::Counted(items) => Ok(Shared::Counted(Arc::try_clone(items)?)),
            Shared::Alone(_) => Err(Memory),
        }
    }
}

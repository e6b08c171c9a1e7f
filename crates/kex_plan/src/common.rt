// What plans have in common.

ghost use Rattle.std.specs.Prelude.{◌≡◌, IfOk};

use kex_code::memory::Memory;
use std::alloc::Global;
use std::marker::Model;
use std::sync::Arc;

/// Who has a value: owners that are counted, or one.
#[derive(Drop)]
enum Owner<T> {
    Counted(Arc<T>),
    Alone(T),
}

/// A value that plans may have in common: it stays while one of them has it.
#[derive(Drop)]
pub struct Common<T> {
    owner: Owner<T>,
}

impl<T> Model for Common<T> {
    ghost use Rattle.kex_plan.specs.Commons.{owner_value};

    ghost Value = { T };

    ghost view = { λ c. owner_value c.owner };
}

impl<T: Drop> Common<T> {
    /// The value, whose owners are counted from now on.
    pub fn new(alloc: Global, value: T) -> Result<Common<T>, Memory>
        ensures { IfOk result (λ c. c ≡ value) }
    {
        match Arc::new(alloc, value) {
            Ok(one) => Ok(Common {
                owner: Owner::Counted(one),
            }),
            Err(_) => Err(Memory),
        }
    }

    /// The value, which has one owner: `again` fails.
    pub fn alone(value: T) -> Common<T>
        ensures { result ≡ value }
    {
        Common {
            owner: Owner::Alone(value),
        }
    }

    /// The value.
    pub fn get(&self) -> &T
        ensures { result.now ≡ self.now }
    {
        match &self.owner {
            Owner::Counted(one) => one,
            Owner::Alone(value) => value,
        }
    }

    /// One more owner of the same value. Fails where it has one alone, or no more can be counted.
    pub fn again(&self) -> Result<Common<T>, Memory>
        ensures { IfOk result (λ c. c ≡ self.now) }
    {
        match &self.owner {
            Owner::Counted(one) => {
                let one = Arc::try_clone(one)?;
                Ok(Common {
                    owner: Owner::Counted(one),
                })
            }
            Owner::Alone(_) => Err(Memory),
        }
    }
}

// By what a stage goes that has a table.

ghost use Rattle.std.specs.Prelude.{◌≡◌, [], false, IfOk, IfSome, IsTrue};
ghost use Rattle.kex_runner.specs.Quiet.{IsGuide};
ghost use Rattle.kex_runner.specs.Running.{IsRunOf};

use kex_code::memory::Memory;
use kex_runner::runner::Runner;
use kex_runner::shared_guide::SharedGuide;
use kex_sst::table::Table;
use std::alloc::Global;
use std::marker::Model;

/// A table, and its guide if that was made.
#[derive(Drop)]
pub struct Route<'p> {
    table: &'p Table,
    guide: Option<&'p SharedGuide>,
}

impl<'p> Model for Route<'p> {
    ghost use Rattle.std.specs.Prelude.{IfSome};
    ghost use Rattle.kex_runner.specs.Quiet.{IsGuide};
    ghost use Rattle.kex_sst.specs.Tables.{Transducer};

    ghost Value = { Transducer };

    ghost view = { λ r. r.table.now };

    ghost invariant = { λ r. IfSome r.guide (λ g. IsGuide r.table.now g.now) };
}

impl<'p> Route<'p> {
    /// Along a table, by its guide if there is one.
    pub fn new(table: &'p Table, guide: Option<&'p SharedGuide>) -> Route<'p>
        requires { IfSome guide (λ g. IsGuide table.now g.now) }
        ensures { result ≡ table.now }
    {
        Route { table, guide }
    }

    /// The same once more.
    pub fn twin(&self) -> Route<'p>
        ensures { result ≡ self.now }
    {
        Route {
            table: self.table,
            guide: self.guide,
        }
    }

    /// The table.
    pub fn table(&self) -> &'p Table
        ensures { result.now ≡ self.now }
    {
        self.table
    }

    /// A runner of the table that was fed nothing.
    pub fn runner(&self, alloc: Global) -> Result<Runner<'p>, Memory>
        ensures table { IfOk result (λ r. r.table ≡ self.now) }
        ensures stands { IfOk result (λ r. IsRunOf r [] []) }
        ensures usable { IfOk result (λ r. (IsTrue r.usable) × (r.ended ≡ false) × (r.read ≡ 0)) }
    {
        match self.guide {
            None => Runner::new(alloc, self.table),
            Some(guide) => Runner::over(alloc, self.table, guide.again()?),
        }
    }
}

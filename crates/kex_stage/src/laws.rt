// Laws of stages. Each function's contract is a law.

ghost use Rattle.kex_stage.specs.Stages.{TablesAnswer};

/// A stage that goes by a table has an answer on each text, open or ended and within whatever
/// limit.
pub fn tables_answer()
    ensures { TablesAnswer }
{}

//! What the tests ask of programs and stages.
use kex_compile::limits::Limits;

pub(crate) const ANY: Limits = Limits {
    states: 4_096,
    one_stage: false,
    tables: true,
    optimal: false,
};

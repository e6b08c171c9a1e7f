// What a new list is made of.

use kex_action::action::Action;

/// The whole list of an old register, or an action.
#[derive(Clone, Copy, Debug, PartialEq, Eq)]
pub enum Link {
    Whole(u32),
    Own(Action),
}

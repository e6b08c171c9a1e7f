// Tables: states, and what they do on each class of bytes.

ghost use Rattle.std.specs.Prelude.{◌≡◌, ◌<◌, Option, Some, None, MatchOption, length};
ghost use Rattle.kex_byteset.specs.Classes.{class_count};
ghost use Rattle.kex_sst.specs.Tables.{IsTable, Row, transition_of};

use crate::fan::Fan;
use crate::parts::{Parts, Update};
use crate::shared::SharedUpdate;
use kex_byteset::Partition;
use std::marker::Model;

/// Where a state goes on a class of bytes, and with which update.
#[derive(Drop)]
pub struct Transition {
    pub target: u32,
    pub update: SharedUpdate,
}

/// A state: how many registers it has, those on the way to the leaf at which a text may end, if
/// there is one, and for each class of bytes its transition, if a byte of the class can come.
#[derive(Drop)]
pub struct State {
    registers: u32,
    accepting: Option<Parts>,
    go: Fan,
}

impl Model for State {
    ghost use Rattle.kex_sst.specs.Tables.{Row};

    ghost Value = { Row };

    ghost view = { λ s.
        record { registers = s.registers; accepting = s.accepting; go = s.go } };
}

impl State {
    /// The state of these parts, which are moved.
    pub fn new(registers: u32, accepting: Option<Parts>, mut go: Fan) -> State
        ensures { result ≡ record { registers = registers; accepting = accepting; go = go } }
    {
        go.shrink_to_fit();
        State {
            registers,
            accepting,
            go,
        }
    }

    /// How many registers it has.
    pub fn registers(&self) -> u32
        ensures { result ≡ self.now.registers }
    {
        self.registers
    }

    /// What is on the way to the leaf at which a text may end, if there is one.
    pub fn accepting(&self) -> Option<&Parts>
        ensures { MatchOption result (self.now.accepting ≡ None) (λ parts. self.now.accepting
            ≡ Some parts.now) }
    {
        self.accepting.as_ref()
    }

    /// The transitions, by class.
    pub fn go(&self) -> &Fan
        ensures { result.now ≡ self.now.go }
    {
        &self.go
    }
}

/// States by number, from the first, with the classes of bytes and the update before the first
/// byte.
#[derive(Drop)]
pub struct Table {
    partition: Partition,
    initial: Update,
    states: Vec<State>,
}

impl Model for Table {
    ghost use Rattle.kex_sst.specs.Tables.{Transducer, IsTable};

    ghost Value = { Transducer };

    ghost view = { λ t.
        record { classes = t.partition; initial = t.initial; states = t.states.items } };

    ghost invariant = { λ t.
        IsTable (record { classes = t.partition; initial = t.initial; states = t.states.items }) };
}

impl Table {
    /// The table of these parts, which are moved.
    pub fn new(partition: Partition, initial: Update, states: Vec<State>) -> Table
        requires { IsTable
            (record { classes = partition; initial = initial; states = states.items }) }
        ensures { result
            ≡ record { classes = partition; initial = initial; states = states.items } }
    {
        Table {
            partition,
            initial,
            states,
        }
    }

    /// The classes of bytes.
    pub fn partition(&self) -> &Partition
        ensures same { result.now ≡ self.now.classes }
        ensures table { IsTable self.now }
    {
        &self.partition
    }

    /// The update before the first byte.
    pub fn initial(&self) -> &Update
        ensures same { result.now ≡ self.now.initial }
        ensures table { IsTable self.now }
    {
        &self.initial
    }

    /// The states, by number; a text begins in the first.
    pub fn states(&self) -> &[State]
        ensures same { result.now ≡ self.now.states }
        ensures table { IsTable self.now }
    {
        &self.states
    }

    /// Where a state goes on a class of bytes, and the update, if a byte of the class can come.
    pub fn next(&self, state: u32, class: u8) -> Option<(u32, &Update)>
        requires state { state < length self.now.states }
        requires class { class < class_count self.now.classes }
        ensures { MatchOption result (transition_of self.now state class ≡ None) (λ r.
            transition_of self.now state class ≡ Some (record { target = r.0; update = r.1.now })) }
    {
        let state = &self.states[state as usize];
        match state.go.at(class) {
            None => None,
            Some(transition) => Some((transition.target, transition.update.get())),
        }
    }
}

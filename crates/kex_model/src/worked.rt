// Worked examples of the definitions. Each function's contract is one.

ghost use Rattle.kex_model.specs.Worked.{ChoiceIsLate, EmptyTurnsAreNoParses, EndsAreOfNodes};
ghost use Rattle.kex_model.specs.Worked.{LastStopIsReported, LazyPrefersTheEnd};
ghost use Rattle.kex_model.specs.Worked.{LazyTurnsAreCounted, LeftIsGreedy, LimitStops};
ghost use Rattle.kex_model.specs.Worked.{MuteKeepsRegisters, PlacesAreClosed, RegisterDoubles};
ghost use Rattle.kex_model.specs.Worked.{RegisterIsWholeOrAsItWas, RegistersSwap};
ghost use Rattle.kex_model.specs.Worked.{ReturnsAreNoParses, ShapeForks, TextsBreakOff};
ghost use Rattle.kex_model.specs.Worked.{TurnsAreCounted};

/// A choice between parses is made where the texts part, and nothing is said before.
pub fn choice_is_late()
    ensures { ChoiceIsLate }
{}

/// Of two parses of one text the one that goes left is greedy, and is said as soon as both paths
/// meet.
pub fn left_is_greedy()
    ensures { LeftIsGreedy }
{}

/// Two registers swap the fields of a line, one grows by itself, and one that is filled in a muted
/// group stays filled.
pub fn registers_are_kept()
    ensures swap { RegistersSwap }
    ensures grow { RegisterDoubles }
    ensures mute { MuteKeepsRegisters }
    ensures begun { RegisterIsWholeOrAsItWas }
{}

/// What a repetition needs and has left.
pub fn turns_are_counted()
    ensures { TurnsAreCounted }
{}

/// A lazy repetition prefers its end.
pub fn lazy_prefers_the_end()
    ensures { LazyPrefersTheEnd }
{}

/// A lazy repetition counts its turns as a greedy one does.
pub fn lazy_turns_are_counted()
    ensures { LazyTurnsAreCounted }
{}

/// The ends of two groups of one body are two places.
pub fn ends_are_of_nodes()
    ensures { EndsAreOfNodes }
{}

/// Places are closed under steps and rests.
pub fn places_are_closed()
    ensures { PlacesAreClosed }
{}

/// A turn that reads nothing belongs to trees and to no parse.
pub fn empty_turns_are_no_parses()
    ensures { EmptyTurnsAreNoParses }
{}

/// A path comes back neither by a choice nor to a place that a byte led to.
pub fn returns_are_no_parses()
    ensures { ReturnsAreNoParses }
{}

/// A text that is open, rejected, cut off or whole.
pub fn texts_break_off()
    ensures { TextsBreakOff }
{}

/// A text that is longer than the limit.
pub fn limit_stops()
    ensures { LimitStops }
{}

/// The shape of the empty text.
pub fn shape_forks()
    ensures { ShapeForks }
{}

/// A pipeline reports the last stage that stopped.
pub fn last_stop_is_reported()
    ensures { LastStopIsReported }
{}

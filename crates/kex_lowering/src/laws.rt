// That a stage's places and its nodes answer alike. Each function's contract is a law.

ghost use Rattle.kex_lowering.specs.Best.{BestStagesStand, NodesTellBestAsPlaces};
ghost use Rattle.kex_lowering.specs.Stages.{NodesAnswerAsPlaces};
ghost use Rattle.kex_lowering.specs.Existence.{MachinesHaveAnswers, StagesHaveAnswers};
ghost use Rattle.kex_lowering.specs.Existence.{ViableTextsGoOn};
ghost use Rattle.kex_lowering.specs.Shapes.{MachinesAnswerAsPlaces, NodesHaveShapesOfPlaces};
ghost use Rattle.kex_lowering.specs.Shapes.{NodesHaveStatesOfPlaces};

/// What holds of a stage's places holds of the nodes that are left of its machine, and back: what
/// is viable, what is agreed, what is said and meant, and each answer.
pub fn nodes_answer_as_places()
    ensures { NodesAnswerAsPlaces }
{}

/// The same holds of the machine before it is trimmed; and all its paths and shapes are those of
/// the places.
pub fn machines_answer_as_places()
    ensures { MachinesAnswerAsPlaces }
{}

/// What is left of the machine has the shapes of the places, and the paths to those from which the
/// end is reached.
pub fn nodes_have_shapes_of_places()
    ensures { NodesHaveShapesOfPlaces }
{}

/// What is left of the machine has as many states as the stage has.
pub fn nodes_have_states_of_places()
    ensures { NodesHaveStatesOfPlaces }
{}

/// On each text, open or ended and within whatever limit, a machine has an answer whose nodes all
/// lead to the end.
pub fn machines_have_answers()
    ensures { MachinesHaveAnswers }
{}

/// So has a stage that has a machine.
pub fn stages_have_answers()
    ensures { StagesHaveAnswers }
{}

/// A text of such a stage is viable exactly where some text that begins with it has a parse.
pub fn viable_texts_go_on()
    ensures { ViableTextsGoOn }
{}

/// What is left of the machine tells what is best as the places do: the code of each text, what is
/// said of it, and each answer.
pub fn nodes_tell_best_as_places()
    ensures { NodesTellBestAsPlaces }
{}

/// The answers of a stage that tells what is best: one on each text, with a text that grows and a
/// stop that stays.
pub fn best_stages_stand()
    ensures { BestStagesStand }
{}

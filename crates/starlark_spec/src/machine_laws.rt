//! What holds of the machine that reads tokens; the laws and the parser are proved from it.
ghost use Rattle.starlark_spec.specs.Machine.Answers.{EachAnswerIsRight, EachDerivationIsRead, EachRunBeginsAProgram};

/// Each answer of the machine over a list of items is correct.
pub fn each_answer_is_right()
    ensures { EachAnswerIsRight }
{}

/// The machine reads each derivation.
pub fn each_derivation_is_read()
    ensures { EachDerivationIsRead }
{}

/// What the machine has read is the start of a program.
pub fn each_run_begins_a_program()
    ensures { EachRunBeginsAProgram }
{}

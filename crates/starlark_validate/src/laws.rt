//! What holds for all lists of items under any dialect.
ghost use Rattle.starlark_validate.specs.Answers.{EachListIsAnswered, EachTestedAnswerIsRight, HasOneAnswer};

/// If the parser's answer is correct, so is the answer after its tree is tested.
pub fn each_tested_answer_is_right()
    ensures { EachTestedAnswerIsRight }
{}

/// There is a correct answer for each list of items; it is out of memory only if the lexer ran out of memory.
pub fn each_list_is_answered()
    ensures { EachListIsAnswered }
{}

/// Items have one correct answer, apart from out of memory.
pub fn items_have_one_answer()
    ensures { HasOneAnswer }
{}

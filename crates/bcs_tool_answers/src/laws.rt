//! Laws about the program's answers, for use in proofs. Calling these functions does nothing.
ghost use Rattle.bcs_tool_answers.specs.AnswerLaws.{OneAnswer, OneAnswerALine, SomeAnswer, SomeAnswerALine};

/// A job whose output is exact has at most one answer to an input: one status and one output.
#[tactic(auto, using(crate::proofs::OneAnswer::one_answer))]
pub fn one_answer()
    ensures { OneAnswer }
{}

/// A job has an answer to each input of bytes within the size limit.
#[tactic(auto, using(crate::proofs::SomeAnswer::some_answer))]
pub fn some_answer()
    ensures { SomeAnswer }
{}

/// A job has at most one answer to the lines of an input, if its output is exact and refusals aren't JSON.
pub fn one_answer_a_line()
    ensures { OneAnswerALine }
{}

/// The lines of an input have an answer if the input is bytes and each line is within the size limit.
#[tactic(auto, using(crate::proofs::LineLaws::some_answer_a_line))]
pub fn some_answer_a_line()
    ensures { SomeAnswerALine }
{}

//! Laws of one answer, and of a history that grows.

ghost use Rattle.op_legal.specs.Grows.{BeginningsAreLegal, TasksStayProper};
ghost use Rattle.op_legal.specs.Keeps.{AnswersKeepLegal};

/// The act that a proper task is answered may follow the history, whether that is legal or not, where the fee is at most
/// the amount on which the fee rule is asked.
pub fn answers_keep_legal()
    ensures { AnswersKeepLegal }
{}

/// Every beginning of a legal history is legal.
pub fn beginnings_are_legal()
    ensures { BeginningsAreLegal }
{}

/// A proper task stays proper as a history grows.
pub fn tasks_stay_proper()
    ensures { TasksStayProper }
{}

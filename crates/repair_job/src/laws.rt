//! Laws of the answers, each the contract of a function that does nothing.
ghost use Rattle.repair_job.specs.Laws.{OneAnswer, OneText};

/// One answer at most is right for a job, and an answer has one text at most.
pub fn one_answer()
    ensures answer { OneAnswer }
    ensures text { OneText }
{}

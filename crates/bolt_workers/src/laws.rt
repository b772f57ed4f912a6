//! What a history says. The functions do nothing: their contracts are the laws.

ghost use Rattle.bolt_workers.specs.Later.{EndsStay, HistoriesTell, JobsWait};

/// Two boards of one program with one history are the same but for the stored states of queries.
pub fn histories_tell()
    ensures { HistoriesTell }
{}

/// What is over stays over, and what was stopped stays stopped.
pub fn ends_stay()
    ensures { EndsStay }
{}

/// A job that is out waits for each later board: it may be given back as it might before, and the
/// same may be published of it. A table stays a prefix of the board's.
pub fn jobs_wait()
    ensures { JobsWait }
{}

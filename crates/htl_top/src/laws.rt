// What the values and lines of a run depend on, and what `go` shows of a source. Each law is a statement that the check has
// proved; there is nothing to run.
ghost use Rattle.htl_top.specs.FoundLaws.{GoValueLinesAreFound, NamesTellApart};
ghost use Rattle.htl_top.specs.JobLaws.{GoShowsJobLines, GoTellsJobsInTime, GoJobLinesAreFound, GoTellsALegalLog};
ghost use Rattle.htl_top.specs.Laws.{SensorsDecideLines, EarlierReadingsDecideValues, EarlierReadingsDecideTexts, GoShowsTheMeaning, GoKeepsDeadlines};

/// Two scripts with the same sensor values up to an instant give the same lines of values and modes up to
/// it, whatever lengths of jobs they set and whatever else they read.
pub fn sensors_decide_lines()
    ensures { SensorsDecideLines }
{}

/// The values at an instant depend only on the events that were read at it or before.
pub fn earlier_readings_decide_values()
    ensures { EarlierReadingsDecideValues }
{}

/// The lines of values and modes of the instants before one, as text, depend only on the events that were read before it.
pub fn earlier_readings_decide_texts()
    ensures { EarlierReadingsDecideTexts }
{}

/// At each instant of a run of a source's object, what `go` shows is lines of jobs, and then the lines of values and modes that
/// logical execution time gives of the source's own tables, whose functions are expressions.
pub fn go_shows_the_meaning()
    ensures { GoShowsTheMeaning }
{}

/// In a run of a source's object with a whole script for its tables, each job of each frame whose window ended by the end of the run
/// is done once, within its window, in slices of its own that begin no earlier than its predecessors are done.
pub fn go_keeps_deadlines()
    ensures { GoKeepsDeadlines }
{}

/// At each instant of a run of a source's object, what `go` shows is the j and d lines of the records that are left then, and the lines
/// of values and modes, and nothing else.
pub fn go_shows_job_lines()
    ensures { GoShowsJobLines }
{}

/// In a run of a source's object with a whole script for its tables, of each job of each frame whose window ended by the end of the run
/// the text has one d line in its module's round, no later than the end of its window, and its j lines in the round lie in the window
/// and have as many ticks as it takes.
pub fn go_tells_jobs_in_time()
    ensures { GoTellsJobsInTime }
{}

/// In the text of a run of a source's object a reader who cuts its bytes behind each line feed, and takes the lines that begin with `j`
/// or `d`, finds those of the records and no others: a j line of each slice that a record closes, with its invocation, and a d line of
/// each job that a record finishes.
pub fn go_job_lines_are_found()
    ensures { GoJobLinesAreFound }
{}

/// The lines of that text that begin with `j` are a legal log for the run, as an audit judges logs: each slice lies in a window of a job
/// of its invocation, overlaps no other, gives the job no more ticks than it takes, and begins no earlier than the job's predecessors
/// are done; and no job whose window ended by the end of the run has fewer ticks than it takes.
pub fn go_tells_a_legal_log()
    ensures { GoTellsALegalLog }
{}

/// So too the lines that begin with `v` or `m`: the reader finds those of the values and modes that change by the meaning of the source's
/// own tables, and no others.
pub fn go_value_lines_are_found()
    ensures { GoValueLinesAreFound }
{}

/// In tables in range, whose names are identifiers, two communicators have different names, and so have two modules; and lines name
/// no two modes and no two invocations alike, as `MODULE.MODE` and `MODULE.MODE.TASK`.
pub fn names_tell_apart()
    ensures { NamesTellApart }
{}

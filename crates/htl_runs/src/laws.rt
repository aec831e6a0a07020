//! The laws of a run, over the definitions alone. Each is a statement that the check has proved; there is nothing to run.
ghost use Rattle.htl_runs.specs.frames.FramePlaces.{FrameJobsStand};
ghost use Rattle.htl_runs.specs.jobs.Laws.{AcceptedIsLoaded, EveryJobInTime, ValuesAreTheMeaning, SensorsDecide, LaterEventsLeaveText, JobLinesAreRecords, JobLinesAreFound, EveryJobToldInTime};
ghost use Rattle.htl_runs.specs.lists.FirstStand.{ListsAreBegun};
ghost use Rattle.htl_runs.specs.lists.NextSMachines.{SMachinesGoOn};
ghost use Rattle.htl_runs.specs.lists.NextLists.{ListsBegin};
ghost use Rattle.htl_runs.specs.frames.RunFrames.{FeasibleRuns, ValuesGoOn, RunReady};
ghost use Rattle.htl_runs.specs.lists.RunLists.{RunsGoByLists};

/// An accepted object is a loaded program: its tables keep the form rules, and every path accepts the lists of its nodes.
pub fn accepted_is_loaded()
    ensures { AcceptedIsLoaded }
{}

/// Of an accepted object, whatever the sensors show and however long the jobs take within their worst cases: each job of each frame
/// whose window ended by the end of the run is done once, within its window, in slices that lie in the window, have as many ticks as
/// it takes, overlap no other job's and begin no earlier than its predecessors are done.
pub fn every_job_in_time()
    ensures { EveryJobInTime }
{}

/// Where values and modes alone are shown, the text before an instant is that of the meaning, which knows no code, no schedule and no
/// length of a job.
pub fn values_are_the_meaning()
    ensures { ValuesAreTheMeaning }
{}

/// So that text is the same for all objects of the same tables and for all events under which the sensors show the same values.
pub fn sensors_decide()
    ensures { SensorsDecide }
{}

/// The text before an instant depends on no value and no length that is read at that instant or later.
pub fn later_events_leave_text()
    ensures { LaterEventsLeaveText }
{}

/// Where jobs are shown, the text of a run is line after line, and its j and d lines are those of the records up to its end, in order:
/// a j line of each slice that a record closes, with its invocation, and a d line of each job that a record finishes.
pub fn job_lines_are_records()
    ensures { JobLinesAreRecords }
{}

/// So they are what a reader finds who cuts the bytes of the text behind each line feed and takes the lines that begin with `j` or
/// `d`, for all tables whose names are identifiers.
pub fn job_lines_are_found()
    ensures { JobLinesAreFound }
{}

/// Of an accepted object, whatever the sensors show and however long the jobs take within their worst cases, and whatever periods its
/// root modules have: of each job of each frame whose window ended by the end of the run the text has one d line in its module's round,
/// about the instant at which it finishes, no later than the end of its window, and its j lines in the round lie in the window and have
/// as many ticks as the job takes.
pub fn every_job_is_told_in_time()
    ensures { EveryJobToldInTime }
{}

/// At each instant of a run a frame has the jobs so far, from the form rules alone and whatever periods root modules
/// have: one for each invocation that stands, in its own module's round, with its window and its predecessors.
pub fn frame_jobs_stand()
    ensures { FrameJobsStand }
{}

/// Where the lists of the nodes are feasible for every path, whatever the events within the worst cases: at each instant the records of
/// the frame serve the jobs that it has so far, and the frame goes on with further jobs, or the next begins.
pub fn runs_go_by_frames()
    ensures { FeasibleRuns }
{}

/// So each instant makes of a world that follows the values before it one that follows those before the next.
pub fn values_go_on()
    ensures { ValuesGoOn }
{}

/// So once the records of an instant are done, what is due is finished, and what is finished has read all.
pub fn runs_are_ready()
    ensures { RunReady }
{}

/// And the run goes list by list: at each instant one list of the frame stands, whose records are those that the frame has so far, and
/// it goes on, or it is over and the next begins.
pub fn runs_go_by_lists()
    ensures { RunsGoByLists }
{}

/// A list begins exactly where a round of some root module does. Which it is follows from the list before it and the modes at that
/// instant: its number in the frame, and its node.
pub fn lists_begin()
    ensures { ListsBegin }
{}

/// Where all of a list is left, the S machine may go on with the positions that are new in the next list, and then stands at its
/// beginning.
pub fn s_machines_go_on()
    ensures { SMachinesGoOn }
{}

/// So as a list of a run begins, the S machine that begins anew at a frame's start, and else goes on with the jobs of the rounds that
/// begin, stands at the list's beginning: by the modes of the instant, and the lengths that are kept.
pub fn lists_are_begun()
    ensures { ListsAreBegun }
{}

//! What the verdicts on a trace mean. The functions do nothing: each contract is a law.

ghost use Rattle.trace_replay.specs.ReplayLaws.{AcceptedTracesAreRuns, RejectedTracesAreNoRuns, RunsByValuesAreRuns, RunsWithoutSumsAreByValues};

/// A trace that is accepted is that of a run of the linear process, over any data: the labels agree.
pub fn accepted_traces_are_runs()
    ensures { AcceptedTracesAreRuns }
{}

/// Over consistent data a trace that is rejected is that of no run in which sum variables have constructor values, up to the line with its
/// number.
pub fn rejected_traces_are_no_runs()
    ensures { RejectedTracesAreNoRuns }
{}

/// A run in which sum variables have constructor values is a run, and where there are no sum variables each run is one.
pub fn runs_by_values()
    ensures runs { RunsByValuesAreRuns }
    ensures without_sums { RunsWithoutSumsAreByValues }
{}

ghost use Rattle.trace_replay.specs.Traces.{BadTracesHaveNoLabels, BadTracesHaveOneFirstBadLine, TracesHaveOneListOfLabels};

/// A text is a trace of one list of labels, or has one first bad line, and never both.
pub fn traces_are_read_once()
    ensures labels { TracesHaveOneListOfLabels }
    ensures apart { BadTracesHaveNoLabels }
    ensures bad { BadTracesHaveOneFirstBadLine }
{}

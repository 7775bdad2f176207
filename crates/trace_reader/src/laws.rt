//! The grammar in its own words.
ghost use Rattle.trace_reader.specs.Laws.{FaultsAreFirst, TracesAreRunnable, TracesSay};

/// What a text's records say as a trace, and which of them is the first to be refused, and why: each record passes by
/// the facts of the lines before it. A trace that is said may be run.
pub fn grammar_laws()
    ensures faults { FaultsAreFirst }
    ensures traces { TracesSay }
    ensures runnable { TracesAreRunnable }
{}

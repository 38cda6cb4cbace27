//! The theorems on runs of calls.

ghost use Rattle.walks.specs.Theorems.{RunsGrow, RunsAgree};

/// A run to which one call is added keeps the laws of runs.
fn runs_grow_stands()
    ensures { RunsGrow }
{}

/// Runs over one full list in which the same is asked are equal.
fn runs_agree_stands()
    ensures { RunsAgree }
{}

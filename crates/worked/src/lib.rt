//! Worked examples: small networks whose full lists, classes and runs of calls are known line by line.
//!
//! They follow from the definitions, whatever a program does. The function below stands for all of them
//! together; its contract states them.

#![tactic(auto)]

mod holding;
pub mod opened;

ghost use Rattle.worked.specs.WorkedExamples.{WorkedExamples};

/// The worked examples hold.
fn worked_examples_stand()
    ensures { WorkedExamples }
{}

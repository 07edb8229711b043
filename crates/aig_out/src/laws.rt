//! Laws over the definitions.

ghost use Rattle.aig_out.specs.Laws.{RunStarts, RunGoesOn};

/// A run of a form is the form's run: it starts as that does, and each step gives the outputs of its cycle and the
/// latches after its edge.
pub fn run_is()
    ensures starts { RunStarts }
    ensures goes_on { RunGoesOn }
{}

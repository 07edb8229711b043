//! Laws over the definitions.

ghost use Rattle.aig_design.specs.Laws.{CodesArePlain, InputsHaveNumbers};

/// The code of each leaf runs on words of literals.
pub fn codes_are_plain()
    ensures { CodesArePlain }
{}

/// Where a form's inputs have the bits of a design's, the words of input ports have their numbers.
pub fn inputs_have_numbers()
    ensures { InputsHaveNumbers }
{}

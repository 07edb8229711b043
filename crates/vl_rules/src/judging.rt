//! The call that judges a design.

ghost use Rattle.std.specs.Prelude.{◌≡◌, IfOk, OnOk, IfErr};
ghost use Rattle.vl_tree.specs.Read.{read_design};
ghost use Rattle.vl_tree.specs.Spells.{IsPlain};
ghost use Rattle.vl_model.specs.Rules.{IsSound};
ghost use Rattle.vl_rules.specs.Answer.{design_of, IsFirstFault};

use crate::judge::first_fault;
use crate::sound::Sound;
use std::alloc::Global;
use vl_tree::{Design, TextFault};

/// The design as a sound one, if it keeps the rules. It is spent where it does not.
///
/// # Errors
///
/// The first of faults 4 to 11, with the number of its line; or memory ran out.
pub fn rules(alloc: Global, design: Design) -> Result<Sound, TextFault>
    requires { IsPlain (read_design design) }
    ensures same { IfOk result (λ s. design_of s ≡ design) }
    ensures sound { OnOk result (IsSound (read_design design)) }
    ensures fault { IfErr result (IsFirstFault (read_design design)) }
{
    match first_fault(alloc, &design) {
        Ok(None) => Ok(Sound::new(design)),
        Ok(Some(fault)) => Err(fault),
        Err(fault) => Err(TextFault::Memory(fault)),
    }
}

//! The text of a form.

ghost use Rattle.std.specs.Prelude.{◌≡◌};
ghost use Rattle.std.specs.Coded.{le_prop};
ghost use Rattle.std.specs.List.{AllByRecursion-prop};
ghost use Rattle.surf_base.specs.Block.{Writes, stream};
ghost use Rattle.aig_model.specs.Form.{IsForm};
ghost use Rattle.aig_model.specs.Text.{text_of};
ghost use Rattle.aig_out.specs.Forms.{form_of};
ghost use Rattle.surf_cli.specs.FormText.{AreOrdered-prop};

use aig_out::{Aig, put_aig};
use surf_base::{Block, Failed, Sink};

/// A form that is not written yet.
#[derive(Drop)]
pub(crate) struct FormText {
    aig: Aig,
    ghost form: { IsForm (form_of aig) } by { Prim.hlevel (AreOrdered-prop, AllByRecursion-prop, le_prop) },
}

impl FormText {
    /// The text of this form.
    pub(crate) fn new(aig: Aig) -> FormText
        requires { IsForm (form_of aig) }
        ensures { result.aig ≡ aig }
    {
        FormText { aig }
    }

    /// Puts the text.
    pub(crate) fn put<O: Sink>(&self, block: &mut Block, out: &mut O) -> Result<(), Failed>
        ensures { Writes result (stream (O.written out.old) block.old (O.faults out.old))
            (stream (O.written out.new) block.new (O.faults out.new)) (text_of (form_of self.now.aig)) }
    {
        put_aig(block, out, &self.aig)
    }
}

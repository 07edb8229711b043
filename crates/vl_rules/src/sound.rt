//! Sound designs.

ghost use Rattle.std.specs.Prelude.{◌≡◌, true, None};
ghost use Rattle.vl_tree.specs.Plain.{plain_design};
ghost use Rattle.vl_tree.specs.Read.{read_design};
ghost use Rattle.vl_model.specs.Rules.{IsSound, first_fault};

use vl_tree::Design;

/// A design that keeps the rules.
#[derive(Drop)]
pub struct Sound {
    design: Design,
    pub ghost plain: { plain_design (read_design design) ≡ true },
    pub ghost rules: { first_fault (read_design design) ≡ None },
}

impl Sound {
    pub(crate) fn new(design: Design) -> Sound
        requires { IsSound (read_design design) }
        ensures { result.design ≡ design }
    {
        Sound { design }
    }

    /// The design, which is sound.
    pub fn design(&self) -> &Design
        ensures same { result.now ≡ self.now.design }
        ensures sound { IsSound (read_design result.now) }
    {
        &self.design
    }
}

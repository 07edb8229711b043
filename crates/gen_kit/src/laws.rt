//! Laws over the definitions.

ghost use Rattle.gen_kit.specs.Laws.{RotateShown, RotateKept, RotateStarts, MuxShown, TableShown, OwnNamesApart, OwnNamesFit, OwnNamesAreNoPorts};

/// The nets of a round-robin choice show what is picked.
pub fn rotate_shown()
    ensures { RotateShown }
{}

/// An edge moves its pointer behind what is picked.
pub fn rotate_kept()
    ensures { RotateKept }
{}

/// Its pointer begins at 0.
pub fn rotate_starts()
    ensures { RotateStarts }
{}

/// An OR of words, each where its bit is 1, is the word of the one bit, or 0.
pub fn mux_shown()
    ensures { MuxShown }
{}

/// A table by the bits of a net is the function.
pub fn table_shown()
    ensures { TableShown }
{}

/// A leaf's own names of two tags, or of two numbers, differ; they are names, and their second byte is no letter, as a
/// port's is.
pub fn own_names()
    ensures apart { OwnNamesApart }
    ensures fit { OwnNamesFit }
    ensures no_ports { OwnNamesAreNoPorts }
{}

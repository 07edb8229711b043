//! Laws over the definitions.

ghost use Rattle.gen_buffer.specs.Laws.{ListKept, ListStarts};

/// An edge keeps the list in a memory, for any first content.
pub fn list_kept()
    ensures { ListKept }
{}

/// The list is empty at reset, for any first content.
pub fn list_starts()
    ensures { ListStarts }
{}

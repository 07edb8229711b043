//! Laws of what an audit says.

ghost use Rattle.label_audit.specs.Laws.{CleanTextIsolates, LeakIsUnclean};

/// A sound design that its audit finds clean isolates every domain.
pub fn clean_text_isolates()
    ensures { CleanTextIsolates }
{}

/// A sound design with a leak isn't clean. So an audit answers with a leak exactly where a design isn't clean.
pub fn leak_is_unclean()
    ensures { LeakIsUnclean }
{}

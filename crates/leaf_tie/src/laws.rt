//! Laws over the definitions.

ghost use Rattle.leaf_tie.specs.Laws.{AllocKept, SlotKept, SlotShown, LeavingOwner, ArrivingOwner, BufferKept, ArrivalPushes, ReadyShown, TurnsKept, ChoicesKept, OnShown, FreedShown, LinkKept, IdleKept, CreditKept, RotateNetsFit, ClassNetsFit, OwnDrivers, InOrderTogether, LeavesShown, LeafKept, LeafRun, GroupsMove, GroupsRun, TextRun, OutsShown, SizesFit, CreditsShown};

/// An edge keeps who waits for an output, who holds which channel, and the pointer, as a step has them.
pub fn alloc_kept()
    ensures { AllocKept }
{}

/// A slot counter keeps to its cycle.
pub fn slot_kept()
    ensures { SlotKept }
{}

/// Its nets show whose slot it is.
pub fn slot_shown()
    ensures { SlotShown }
{}

/// A counter that begins at a leaving link's slot names its owner.
pub fn leaving_owner()
    ensures { LeavingOwner }
{}

/// A counter that begins at an arriving link's slot names the owner of the cycle in which the last place was filled.
pub fn arriving_owner()
    ensures { ArrivingOwner }
{}

/// An edge keeps an input channel's list, as a step has it.
pub fn buffer_kept()
    ensures { BufferKept }
{}

/// A buffer is pushed where its domain's word arrives for its channel.
pub fn arrival_pushes()
    ensures { ArrivalPushes }
{}

/// The nets of an output's ready places show them.
pub fn ready_shown()
    ensures { ReadyShown }
{}

/// An edge keeps the input ports' pointers.
pub fn turns_kept()
    ensures { TurnsKept }
{}

/// An edge keeps the outputs' switch pointers.
pub fn choices_kept()
    ensures { ChoicesKept }
{}

/// A flit goes by an output's channel where a place that is active on it leaves.
pub fn on_shown()
    ensures { OnShown }
{}

/// The last flit of a packet goes by an output's channel where it leaves such a place.
pub fn freed_shown()
    ensures { FreedShown }
{}

/// An edge keeps a link's row for all domains.
pub fn link_kept()
    ensures { LinkKept }
{}

/// An edge keeps the places that are idle.
pub fn idle_kept()
    ensures { IdleKept }
{}

/// An edge keeps a channel's credits.
pub fn credit_kept()
    ensures { CreditKept }
{}

/// The widths of a round-robin choice agree.
pub fn rotate_nets_fit()
    ensures { RotateNetsFit }
{}

/// The widths of a class's nets agree.
pub fn class_nets_fit()
    ensures { ClassNetsFit }
{}

/// A name is driven as often as its own group drives it.
pub fn own_drivers()
    ensures { OwnDrivers }
{}

/// The nets of groups that are in order stand in order.
pub fn in_order_together()
    ensures { InOrderTogether }
{}

/// The nets of a domain's switch show which places a flit leaves.
pub fn leaves_shown()
    ensures { LeavesShown }
{}

/// An edge keeps the tie of a leaf to the tile parts of all domains.
pub fn leaf_kept()
    ensures { LeafKept }
{}

/// From reset on the tie stands in every cycle, with any first content of memories.
pub fn leaf_run()
    ensures { LeafRun }
{}

/// Where a leaf's items are those of some groups, each of the groups moves over an edge.
pub fn groups_move()
    ensures { GroupsMove }
{}

/// A leaf whose items are those of all groups, and of others, holds the tile parts of all domains in every cycle.
pub fn groups_run()
    ensures { GroupsRun }
{}

/// So does such a leaf in a sound design, in each of its runs.
pub fn text_run()
    ensures { TextRun }
{}

/// The output ports of a leaf that is tied to its tile show what the tile parts give out.
pub fn outs_shown()
    ensures { OutsShown }
{}

/// The largest sizes are enough for every plan.
pub fn sizes_fit()
    ensures { SizesFit }
{}

/// Each bit of a bundle of credits that goes out is the pulse of its domain and channel.
pub fn credits_shown()
    ensures { CreditsShown }
{}

//! What is live at an item is all that a row from there can read; and the sites of emulated code.
#![tactic(auto)]

ghost use Rattle.live_slots.specs.Agree.{RowsReadWhatIsLive};
ghost use Rattle.live_slots.specs.Sites.{FramesWaitAtSites, RowsRaiseAtSites, SitesKeepSlots};

/// A law: two states that agree in what is live at their item make the same row: the same event with the same terms,
/// or states that agree in what is live at the item where they go on.
pub fn rows_read_what_is_live()
    ensures { RowsReadWhatIsLive }
{}

/// A law: each frame that waits in a run stands at a site.
pub fn frames_wait_at_sites()
    ensures { FramesWaitAtSites }
{}

/// A law: where a row of a run raises its item is a site.
pub fn rows_raise_at_sites()
    ensures { RowsRaiseAtSites }
{}

/// A law: a slot that is live at a site is live at its item, where the item does not store it.
pub fn sites_keep_slots()
    ensures { SitesKeepSlots }
{}

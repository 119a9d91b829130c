//! Laws of the items of events, each as the contract of a function that does nothing.
ghost use Rattle.item_log.specs.Laws.{OneMoreEvent, HeardItems, RefusedGiveNone, LogsShow, ShownItems};

/// The items of one more event come behind those of the events before it.
pub fn one_more_event()
    ensures { OneMoreEvent }
{}

/// Where no event is refused, the items of all events are those that were heard.
pub fn heard_items()
    ensures { HeardItems }
{}

/// An event that is refused gives no item, nor does any behind it.
pub fn refused_give_none()
    ensures { RefusedGiveNone }
{}

/// A log that shows some events shows one more where it logs one more.
pub fn logs_show()
    ensures { LogsShow }
{}

/// The items of the events that a log shows are as many as it received, and it keeps those from the first on.
pub fn shown_items()
    ensures { ShownItems }
{}

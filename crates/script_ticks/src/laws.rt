// What follows of the places of a script's lines.
ghost use Rattle.script_ticks.specs.Laws.{EarlierTicksStandBefore, FrontsDecide, LaterSearchesGoOn, NoLaterTicks, TicksRise};

/// In a script each tick is later than those before it.
pub fn ticks_rise()
    ensures { TicksRise }
{}

/// The first tick at a time or after it stands no later than the first one of a later time, if there is that.
pub fn places_are_in_order()
    ensures { EarlierTicksStandBefore }
{}

/// So the search for a later time may begin where the search for an earlier one has ended.
pub fn searches_go_on()
    ensures found { LaterSearchesGoOn }
    ensures none { NoLaterTicks }
{}

/// Of a text that is longer than any script for 16 streams, one byte more than such a script can have decides which
/// line is the first that no script has.
pub fn whole_scripts_are_decided()
    ensures { FrontsDecide }
{}

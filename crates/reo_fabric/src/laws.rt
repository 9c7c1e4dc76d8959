//! Laws about the definitions, each a function that does nothing.
ghost use Rattle.reo_fabric.specs.Laws.{FittingAgree, FittingHaveRoom, HistoriesGrow, ActCellByCell};

/// An entry that fits the reading of a state agrees with the state.
pub fn fitting_entries_agree()
    ensures { FittingAgree }
{}

/// An entry that fits a reading has room in the room of its region.
pub fn fitting_entries_have_room()
    ensures { FittingHaveRoom }
{}

/// A lawful history goes on with any entry that agrees with the state that it leaves.
pub fn lawful_histories_grow()
    ensures { HistoriesGrow }
{}

/// An entry takes what is in a cell, fills an empty one, and leaves each other one as it is.
pub fn entries_act_cell_by_cell()
    ensures { ActCellByCell }
{}

//! The step law, each law a function that does nothing.
ghost use Rattle.reo_coupling.specs.Whole.{StandsFor, KeepsPart, KeepsEachPart};
ghost use Rattle.reo_coupling.specs.Steps.{Begins, ReadsClock, SeesCell, SeesPort, SeesOffer, Commits, SetsCell, SetsGot, Answers};
ghost use Rattle.reo_coupling.specs.PartySteps.{SetsPut, MakesOffer, SeesState, SeesGot, Clears, PartyKeeps};
ghost use Rattle.reo_coupling.specs.Seats.{KeepsTheRule, SplittingKeepsTheRule, JoiningKeepsTheRule};
ghost use Rattle.reo_coupling.specs.Seats.{PartyKeepsTheRule, PartySplittingKeepsTheRule, PartyJoiningKeepsTheRule};
ghost use Rattle.reo_coupling.specs.Opening.{OpensCoupled};
ghost use Rattle.reo_coupling.specs.Home.{OneHistoryExplainsAll};
ghost use Rattle.reo_coupling.specs.Sources.{TakesHaveSources};
ghost use Rattle.reo_coupling.specs.Laws.{NumbersStandOnce, OnlyCommitsChangeTheState};

/// Where a region begins a round, each part is kept.
pub fn begin_keeps()
    ensures parts { KeepsEachPart Begins }
    ensures whole { KeepsPart Begins StandsFor }
    ensures seats { KeepsTheRule Begins }
{}

/// Where a region reads the commit word, each part is kept.
pub fn clock_keeps()
    ensures parts { KeepsEachPart ReadsClock }
    ensures whole { KeepsPart ReadsClock StandsFor }
    ensures seats { KeepsTheRule ReadsClock }
{}

/// Where a region reads a cell, each part is kept.
pub fn see_cell_keeps()
    ensures parts { KeepsEachPart SeesCell }
    ensures whole { KeepsPart SeesCell StandsFor }
    ensures seats { KeepsTheRule SeesCell }
{}

/// Where a region reads the state word of a port, each part is kept.
pub fn see_port_keeps()
    ensures parts { KeepsEachPart SeesPort }
    ensures whole { KeepsPart SeesPort StandsFor }
    ensures seats { KeepsTheRule SeesPort }
{}

/// Where a region reads what is offered at a port, each part is kept.
pub fn see_offer_keeps()
    ensures parts { KeepsEachPart SeesOffer }
    ensures whole { KeepsPart SeesOffer StandsFor }
    ensures seats { KeepsTheRule SeesOffer }
{}

/// Where a region commits, each part is kept.
pub fn commit_keeps()
    ensures parts { KeepsEachPart Commits }
    ensures whole { KeepsPart Commits StandsFor }
    ensures seats { KeepsTheRule Commits }
{}

/// Where a region stores what is due in a cell, each part is kept.
pub fn set_cell_keeps()
    ensures parts { KeepsEachPart SetsCell }
    ensures whole { KeepsPart SetsCell StandsFor }
    ensures seats { KeepsTheRule SetsCell }
{}

/// Where a region stores the datum of a get, each part is kept.
pub fn set_got_keeps()
    ensures parts { KeepsEachPart SetsGot }
    ensures whole { KeepsPart SetsGot StandsFor }
    ensures seats { KeepsTheRule SetsGot }
{}

/// Where a region answers a port, each part is kept.
pub fn answer_keeps()
    ensures parts { KeepsEachPart Answers }
    ensures whole { KeepsPart Answers StandsFor }
    ensures seats { KeepsTheRule Answers }
{}

/// Where a party stores the value of its next put, what the words stand for is kept.
pub fn set_put_keeps()
    ensures whole { PartyKeeps SetsPut }
    ensures seats { PartyKeepsTheRule SetsPut }
{}

/// Where a party opens a call, it is kept.
pub fn offer_keeps()
    ensures whole { PartyKeeps MakesOffer }
    ensures seats { PartyKeepsTheRule MakesOffer }
{}

/// Where a party reads the state word of a port, it is kept.
pub fn see_state_keeps()
    ensures whole { PartyKeeps SeesState }
    ensures seats { PartyKeepsTheRule SeesState }
{}

/// Where a party reads the datum of its answered call, it is kept.
pub fn see_got_keeps()
    ensures whole { PartyKeeps SeesGot }
    ensures seats { PartyKeepsTheRule SeesGot }
{}

/// Where a party collects a call, it is kept.
pub fn clear_keeps()
    ensures whole { PartyKeeps Clears }
    ensures seats { PartyKeepsTheRule Clears }
{}

/// Where the root gives away the seat of a region or of a party, the rule is kept.
pub fn splitting_keeps()
    ensures regions { SplittingKeepsTheRule }
    ensures parties { PartySplittingKeepsTheRule }
{}

/// Where a seat comes home to the root, the rule is kept.
pub fn joining_keeps()
    ensures regions { JoiningKeepsTheRule }
    ensures parties { PartyJoiningKeepsTheRule }
{}

/// The rule holds of the first words.
pub fn first_words_are_coupled()
    ensures { OpensCoupled }
{}

/// Where all seats are home, one history explains the words and all that the seats knew.
pub fn one_history_explains_all()
    ensures { OneHistoryExplainsAll }
{}

/// Each number is in one region's list, with its entry.
pub fn numbers_stand_once()
    ensures { NumbersStandOnce }
{}

/// Only a commit changes the history and the state.
pub fn only_commits_change_the_state()
    ensures { OnlyCommitsChangeTheState }
{}

/// What an entry takes was there at the start, or an earlier entry put it there, and no other took it between.
pub fn takes_have_sources()
    ensures { TakesHaveSources }
{}

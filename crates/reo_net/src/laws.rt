//! Laws about the definitions, each a function that does nothing.
ghost use Rattle.reo_net.specs.Laws.{RunsEndOnce, NamesHaveOneNode, NamesHaveOneDirection, NodesHaveTheNames, StandsAreTold, RanksRiseAlongChannels, RegionsAreOneList, NodesAreRegions, RegionsAreSingle, FiringsAreNodes, StepsAreJoined, JoinedIsStep};

/// The steps of a run determine the state that it ends in.
pub fn run_determines_its_final_state()
    ensures { RunsEndOnce }
{}

/// A step of the product is what the binary join of constraint automata gives, folded over all channels and nodes in any order.
pub fn product_is_the_join()
    ensures steps { StepsAreJoined }
    ensures only { JoinedIsStep }
{}

/// Each name is of one node, and goes one way there, which `stand_of` tells.
pub fn names_have_one_node()
    ensures one { NamesHaveOneNode }
    ensures one_way { NamesHaveOneDirection }
    ensures all { NodesHaveTheNames }
    ensures told { StandsAreTold }
{}

/// In an accepted circuit the nodes have ranks, and data go at once from lower to higher ones alone.
pub fn ranks_rise_along_channels()
    ensures { RanksRiseAlongChannels }
{}

/// Two lists of all the regions of a circuit are one list.
pub fn regions_are_one_list()
    ensures { RegionsAreOneList }
{}

/// While each channel is a FIFO1, each node is a region of its own, and what it fires are the region's firings.
pub fn fifo_regions_are_nodes()
    ensures regions { NodesAreRegions }
    ensures single { RegionsAreSingle }
    ensures firings { FiringsAreNodes }
{}

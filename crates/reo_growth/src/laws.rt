//! Laws about the definitions, each a function that does nothing.
ghost use Rattle.reo_growth.specs.Laws.{GrowsAll, GrowsOnly, GrowsOnce, AgreesAsOne, VerticesByRule, VerticesOnce, SplitsIntoParts, PartsShareNothing};

/// The vertices at which no automaton is open are the connected firings, each once.
pub fn connected_firings_are_grown()
    ensures all { GrowsAll }
    ensures only { GrowsOnly }
    ensures once { GrowsOnce }
{}

/// The vertices of a root are those that the rules give, and no vertex stands twice among those of all roots.
pub fn vertices_are_by_rule()
    ensures rule { VerticesByRule }
    ensures once { VerticesOnce }
{}

/// In a vertex, a link agrees with every automaton exactly where it agrees with all of them as one.
pub fn agreement_is_of_the_whole()
    ensures { AgreesAsOne }
{}

/// The names that automata fire together split into connected firings that share no name.
pub fn joint_firings_split()
    ensures parts { SplitsIntoParts }
    ensures apart { PartsShareNothing }
{}

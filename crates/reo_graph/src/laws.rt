//! Laws about the definitions, each a function that does nothing.
ghost use Rattle.reo_graph.specs.Laws.{ClosureDecides, RanksRise};

/// Whether a path leads from one vertex to another is decided by way of one vertex more at a time.
pub fn closure_decides_paths()
    ensures { ClosureDecides }
{}

/// Where no vertex is on a loop, how many vertices have a path to a vertex is a rank that rises along edges.
pub fn ranks_rise_along_edges()
    ensures { RanksRise }
{}

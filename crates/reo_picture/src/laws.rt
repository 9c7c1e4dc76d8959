//! Laws about the definitions, each a function that does nothing.
ghost use Rattle.reo_picture.specs.Laws.{LinesHold, NodesAreAtHome, QuotesHold};

/// Whatever a text has in it, the quotes around it end where they are closed.
pub fn no_text_ends_its_quotes()
    ensures { QuotesHold }
{}

/// A picture has one line for each region, node, port and channel, whatever the names and texts.
pub fn each_stands_in_one_line()
    ensures { LinesHold }
{}

/// A node stands in the cluster of its region.
pub fn nodes_are_at_home()
    ensures { NodesAreAtHome }
{}

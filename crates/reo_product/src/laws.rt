//! Laws about the definitions, each a function that does nothing.
ghost use Rattle.reo_product.specs.Laws.{RegionsHaveWebs, WebsAreRegions};
ghost use Rattle.reo_product.specs.Laws.{FiringsAreSoMany, GrowthIsOne, RegionsHaveGrowth, WebsHaveGrowth};
ghost use Rattle.reo_product.specs.Laws.{PartsShareNothing, RegionsShareNothing, StepsSplit};

/// Each region has a web, and what is connected in a web of it is a connected firing of the region.
pub fn webs_are_regions()
    ensures some { RegionsHaveWebs }
    ensures connected { WebsAreRegions }
{}

/// Each region has one growth: the number of vertices of any web of it; and one number of connected firings.
pub fn regions_have_one_growth()
    ensures some { RegionsHaveGrowth }
    ensures one { GrowthIsOne }
    ensures webs { WebsHaveGrowth }
    ensures firings { FiringsAreSoMany }
{}

/// A product step splits, region by region, into connected firings that share no name.
pub fn steps_split_into_firings()
    ensures parts { StepsSplit }
    ensures apart { PartsShareNothing }
    ensures regions_apart { RegionsShareNothing }
{}

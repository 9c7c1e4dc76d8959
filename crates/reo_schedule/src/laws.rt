//! Laws about the definitions, each a function that does nothing.
ghost use Rattle.reo_schedule.specs.Laws.{EnabledStepsSplit, OnePlainReport, QuietIsNotEnabled};

/// An enabled step splits into connected firings of regions, each allowed by its region's reading.
pub fn enabled_steps_split()
    ensures { EnabledStepsSplit }
{}

/// Where no region's reading allows an entry, nothing is enabled.
pub fn quiet_regions_enable_nothing()
    ensures { QuietIsNotEnabled }
{}

/// A circuit, texts, scripts and a limit have at most one plain report.
pub fn one_plain_report()
    ensures { OnePlainReport }
{}

//! Laws about the definitions, each a function that does nothing.
ghost use Rattle.reo_value.specs.Code.{CodesDiffer, CodesAreWords, WordsAreCodes};

/// Codes and values determine each other.
pub fn codes_name_values()
    ensures differ { CodesDiffer }
    ensures words { CodesAreWords }
    ensures all { WordsAreCodes }
{}

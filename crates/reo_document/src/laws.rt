//! Laws about the definitions, each a function that does nothing.
ghost use Rattle.reo_document.specs.Laws.{SpellOrAreRefused, SpellOneDocument, SpellOrAreRefusedAlone, AreRefusedOnce};

/// Bytes spell one document, or are refused for one reason at one place.
pub fn bytes_spell_one_document_or_are_refused()
    ensures either { SpellOrAreRefused }
    ensures one { SpellOneDocument }
    ensures alone { SpellOrAreRefusedAlone }
    ensures once { AreRefusedOnce }
{}

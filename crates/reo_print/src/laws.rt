//! Laws about the definitions, each a function that does nothing.
ghost use Rattle.reo_print.specs.Laws.{TextsAreCutAgain, TextsAreMeantAgain, NamesAreCutAgain, NamesAreMeantAgain, NumbersAreCutAgain, NumbersAreMeantAgain};
ghost use Rattle.reo_print.specs.Again.{DocumentsAreSpelledAgain, TextsSpellNoOther, TextsAreSettled, TextsAreNotRefused, TextsTellApart};
ghost use Rattle.reo_print.specs.Sentences.{SentencesAreWritten, SentencesAreReadAgain};
ghost use Rattle.reo_print.specs.Tokens.{SymbolsAreCutAgain, LinesAreCutAgain};
ghost use Rattle.reo_print.specs.Trees.{TreesMeanTheGuard, TreesAreShortest, GuardsAreWritten, FunctionsAreWritten};

/// What is written of a text is read as one token, which stands for the text.
pub fn written_texts_are_read_again()
    ensures cut { TextsAreCutAgain }
    ensures meant { TextsAreMeantAgain }
{}

/// A name is read as one word, where no word byte follows it.
pub fn written_names_are_read_again()
    ensures cut { NamesAreCutAgain }
    ensures meant { NamesAreMeantAgain }
{}

/// What is written of a number is read as one token, where no word byte follows it, and this token stands for the number.
pub fn written_numbers_are_read_again()
    ensures cut { NumbersAreCutAgain }
    ensures meant { NumbersAreMeantAgain }
{}

/// A symbol is read as one token, where a blank, a closing bracket or a comma follows it, or the line ends.
pub fn written_symbols_are_read_again()
    ensures { SymbolsAreCutAgain }
{}

/// Tokens as they are written, with blanks where they need them, are cut into these tokens again.
pub fn written_lines_are_cut_again()
    ensures { LinesAreCutAgain }
{}

/// A guard has trees with as few tokens as there can be, and is written as the tokens of its trees.
pub fn written_guards_are_trees()
    ensures mean { TreesMeanTheGuard }
    ensures shortest { TreesAreShortest }
    ensures written { GuardsAreWritten }
{}

/// A function is written as its tokens.
pub fn written_functions_are_their_tokens()
    ensures { FunctionsAreWritten }
{}

/// A line is written as the tokens of its tree, and says again what it said.
pub fn written_lines_are_read_again()
    ensures written { SentencesAreWritten }
    ensures again { SentencesAreReadAgain }
{}

/// The canonical text of a document that some bytes spell spells it again, and nothing else.
pub fn written_documents_are_read_again()
    ensures again { DocumentsAreSpelledAgain }
    ensures alone { TextsSpellNoOther }
    ensures settled { TextsAreSettled }
    ensures taken { TextsAreNotRefused }
    ensures apart { TextsTellApart }
{}

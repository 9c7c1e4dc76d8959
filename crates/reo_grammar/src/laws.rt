//! Laws about the grammar, each a function that does nothing.
ghost use Rattle.reo_grammar.specs.Laws.{SayOne, SayOrGoWrong, SayOrGoWrongAlone, GoWrongOnce};

/// The tokens of a line say one thing, or go wrong first at one place.
pub fn tokens_say_one_line_or_go_wrong()
    ensures one { SayOne }
    ensures either { SayOrGoWrong }
    ensures alone { SayOrGoWrongAlone }
    ensures once { GoWrongOnce }
{}

//! What words ask for, as laws. Each is an empty function whose clauses are the laws.
ghost use Rattle.lin_words.specs.LineTexts.{ThreeBuffersAreAsked, TwoBuffersAreAsked};
ghost use Rattle.lin_words.specs.WordLaws.{MethodIsAsked, TwoWordsAsk};

/// What a task's name and a file ask for, alone and with a method behind them.
pub fn short_words_ask()
    ensures two_words { TwoWordsAsk }
    ensures method { MethodIsAsked }
{}

/// The texts that `generate 2` and `generate 3` ask for.
pub fn lines_of_buffers_are_asked()
    ensures two { TwoBuffersAreAsked }
    ensures three { ThreeBuffersAreAsked }
{}

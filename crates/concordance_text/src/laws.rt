//! What holds of all concordances. Each function here does nothing: its contract is what is proved.

ghost use Rattle.concordance_text.specs.Theorems.{LinesAreAdded, LongWordsAreRuns, OneConcordance, OneListOfRows, SomeConcordance, WordsAreRuns};
ghost use Rattle.concordance_text.specs.Worked.{CarriageReturnsSeparate, CasesAreOneWord, FirstLongLineIsTold, LastLineNeedsNoEnd, LongerWordIsTooLong, LongestWordIsShort, NeedIsCounted, NothingIsTold, OtherBytesSeparate, TwoWordsAreTold, WordsAreToldInOrder};

/// A text has at most one concordance, and its words at most one list of rows.
pub fn one_concordance()
    ensures rows { OneListOfRows }
    ensures told { OneConcordance }
{}

/// Each text has a concordance.
pub fn some_concordance()
    ensures { SomeConcordance }
{}

/// If lines of a word are added to rows, all of which are behind those that it has, the rows are those of the words before and these.
pub fn lines_are_added()
    ensures { LinesAreAdded }
{}

/// Texts worked out by hand: their words, their concordances, and lines with words that are too long.
pub fn texts_are_worked_out()
    ensures two_words_are_told { TwoWordsAreTold }
    ensures nothing_is_told { NothingIsTold }
    ensures words_are_told_in_order { WordsAreToldInOrder }
    ensures carriage_returns_separate { CarriageReturnsSeparate }
    ensures other_bytes_separate { OtherBytesSeparate }
    ensures last_line_needs_no_end { LastLineNeedsNoEnd }
    ensures cases_are_one_word { CasesAreOneWord }
    ensures longest_word_is_short { LongestWordIsShort }
    ensures longer_word_is_too_long { LongerWordIsTooLong }
    ensures first_long_line_is_told { FirstLongLineIsTold }
    ensures need_is_counted { NeedIsCounted }
{}

/// The words of a text are its longest runs of letters, lower-cased, each in the line behind those that ended before it.
///
/// So the first line with a word that is too long is the first that has such a run of more than 64 letters.
pub fn words_are_runs()
    ensures words { WordsAreRuns }
    ensures too_long { LongWordsAreRuns }
{}

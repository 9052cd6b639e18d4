// What the definitions of a script entail. These functions do nothing: each is there for its clause,
// which holds of every text.
ghost use Rattle.clover_script.specs.Laws.{OneLine, OneKept, LinesAreApart, OneSaying, NoLinesAreRefused, OneRefusedLine, OneName, OneCut};

/// What a line says is the only thing that it says, as it is written and as it is kept.
pub fn a_text_has_one_line()
    ensures written { OneLine }
    ensures kept { OneKept }
{}

/// A text is of one sort at most: a line that says something, a pool line, or one that is passed over.
pub fn lines_are_apart()
    ensures { LinesAreApart }
{}

/// A script can be read in one way.
pub fn lines_have_one_reading()
    ensures { OneSaying }
{}

/// No text is both a script and refused.
pub fn no_lines_are_refused()
    ensures { NoLinesAreRefused }
{}

/// A text that is refused is refused at one of its lines.
pub fn lines_are_refused_at_one()
    ensures { OneRefusedLine }
{}

/// The name of a copy of a word is that of no other.
pub fn a_name_is_of_one_word()
    ensures { OneName }
{}

/// A choice and its further cuts are the only ones that are written so.
pub fn a_cut_has_one_reading()
    ensures { OneCut }
{}

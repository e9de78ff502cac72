//! What words are read as, told without the command's matches.
ghost use Rattle.run_words.specs.Law.{PlainWordsAreTheLine, WrittenWordsAreRead};

/// Words of which none begins with a hyphen are taken and are the line, with every option as where nothing is said.
pub fn plain_words_are_the_line()
    ensures { PlainWordsAreTheLine }
{}

/// Options that are written out are taken and read as they are, with any words of a line behind `--`.
pub fn written_words_are_read()
    ensures { WrittenWordsAreRead }
{}

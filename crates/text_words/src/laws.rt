//! Worked rows of the definitions.
ghost use Rattle.text_words.specs.Rows.{WordRows};

/// Worked rows of words, values, properties, names of pads and numbers.
pub fn word_rows()
    ensures { WordRows }
{}

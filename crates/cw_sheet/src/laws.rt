ghost use Rattle.cw_sheet.specs.Laws.{ReadIsText, TextIsRead};
ghost use Rattle.cw_sheet.specs.WorkedReading.{WholeTexts};

/// Law: a text is the text of what it is read as. So no sheet is read from two texts: blanks and numbers have one spelling.
pub fn read_is_text()
    ensures { ReadIsText }
{}

/// Law: the text of a sheet is read as that sheet, except for the lines in its source, if its numbers are in range and
/// the text is not too long.
pub fn text_is_read()
    ensures { TextIsRead }
{}

/// Examples: whole texts, and what they are read as.
pub fn worked_readings()
    ensures { WholeTexts }
{}

//! Laws: references differ from each other, last, and are handed out whole.

ghost use Rattle.references.specs.Laws.{OneEntryForText, OneEntryForName, EntriesAreFound, HandedOutIsFound, HandedOutAgain, FoundStaysFound, AllOrNothing, AllIsFound, AllKeepsFound};

/// Laws of the entries: no two have one text, no two have one name under one kind, and the name of
/// each is found by its text.
pub fn entries_differ()
    ensures text { OneEntryForText }
    ensures name { OneEntryForName }
    ensures found { EntriesAreFound }
{}

/// Laws of handing out: what is handed out is found by its text, is handed out again with nothing
/// changed, and what is found stays found whatever is handed out after it.
pub fn references_last()
    ensures found { HandedOutIsFound }
    ensures again { HandedOutAgain }
    ensures kept { FoundStaysFound }
{}

/// Laws of handing out a list: it gets nothing exactly where fewer serials are left than it has
/// nodes without a reference; else each of its nodes is found by the text of its identifier, and
/// what was found stays found.
pub fn lists_are_handed_out_whole()
    ensures nothing { AllOrNothing }
    ensures found { AllIsFound }
    ensures kept { AllKeepsFound }
{}

//! What the visible lines of a transcript decide: their text, the tables, and the replies; and what their text decides.
#![tactic(auto)]

ghost use Rattle.transcript_laws.specs.Laws.{LawfulIsTold, ScriptsHaveNames, ShownLinesDecideReplies};
ghost use Rattle.transcript_laws.specs.Laws.{ShownLinesDecideResults, ShownLinesDecideRollbacks};
ghost use Rattle.transcript_laws.specs.Laws.{ShownLinesDecideTables, ShownLinesTellText, TextDecidesReplies};
ghost use Rattle.transcript_laws.specs.Laws.{TextDecidesResults, TextDecidesTables, TextTellsShownLines};

/// Whoever has the visible lines has their text.
pub fn shown_lines_tell_text()
    ensures { ShownLinesTellText }
{}

/// Whoever has the script and the visible lines up to a place knows every table there, now and at each snapshot.
pub fn shown_lines_decide_tables()
    ensures { ShownLinesDecideTables }
{}

/// Whoever has the script and all visible lines knows the reply of each item that has one which tells it.
pub fn shown_lines_decide_replies()
    ensures { ShownLinesDecideReplies }
{}

/// Of an item that was rolled back this takes the tables with which its last attempt began.
pub fn shown_lines_decide_rollbacks()
    ensures { ShownLinesDecideRollbacks }
{}

/// Whoever has the script and all visible lines knows the result table that each item leaves.
pub fn shown_lines_decide_results()
    ensures { ShownLinesDecideResults }
{}

/// Whoever has the text of visible lines has the lines.
pub fn text_tells_shown_lines()
    ensures { TextTellsShownLines }
{}

/// The plan of a script has names that are told apart.
pub fn scripts_have_names()
    ensures { ScriptsHaveNames }
{}

/// Whose a line of a lawful journal is has a name.
pub fn lawful_is_told()
    ensures { LawfulIsTold }
{}

/// Whoever has the script and the text up to a place knows every table there, now and at each snapshot.
pub fn text_decides_tables()
    ensures { TextDecidesTables }
{}

/// Whoever has the script and the whole text knows the reply of each item that has a visible line which tells it.
pub fn text_decides_replies()
    ensures { TextDecidesReplies }
{}

/// Whoever has the script and the whole text knows the result table that each item leaves.
pub fn text_decides_results()
    ensures { TextDecidesResults }
{}

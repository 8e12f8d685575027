//! What is printed is read back: what a line can say is said by its tokens, and by the bytes that spell them, and these
//! say nothing else.
#![tactic(auto)]

ghost use Rattle.print_laws.specs.Laws.{LineIsRead, LinesSayNoMore, PrintedIsRead};

use sql_lexer::one_reading;

/// The tokens of what is within the limits say it, and nothing else.
pub fn printed_is_read()
    ensures { PrintedIsRead }
{}

/// So do the bytes of these tokens, a blank behind each, where each token has a spelling.
pub fn line_is_read()
    ensures { LineIsRead }
{
    one_reading();
}

/// Some line says it exactly where it is within the limits and each of its tokens has a spelling.
pub fn lines_say_no_more()
    ensures { LinesSayNoMore }
{}

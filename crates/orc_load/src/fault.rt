//! Why no program was loaded: a fault of one of the two texts, or of the source's names. The *source* is the program's text, the *script* the one
//! that says how the sites answer that aren't built in; a *site* is what a program calls to get an answer.

use orc_scope::ScopeFault;
use orc_site::ScriptFault;
use orc_syntax::SyntaxFault;

/// Why no program was loaded. docs/orc.md says what each number (S1, say) means.
#[derive(Clone, Copy, Debug, PartialEq, Eq)]
pub enum LoadFault {
    /// The source's text spells no program (S1 to S7), or memory was refused to its parser (S8).
    Syntax(SyntaxFault),
    /// The source's text spells a program, and the script's text is no script (L1, L3), or memory was refused for it (L2).
    Script(ScriptFault),
    /// Both texts are read, and a name of the source means nothing that fits or is defined twice, or the program is too large (C1 to C8), or memory
    /// was refused (C9).
    Scope(ScopeFault),
}

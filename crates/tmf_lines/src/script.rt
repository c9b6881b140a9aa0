//! Reading a script.
ghost use Rattle.std.specs.Prelude.{◌≡◌, ◌⊎◌, ℕ, IfOk, IfErr, MatchResult};
ghost use Rattle.tmf_model.specs.Script.{IsValidScript};
ghost use Rattle.tmf_model.specs.declared.script.Script.{Script};
ghost use Rattle.tmf_script.specs.declared.fault.Why.{Why};
ghost use Rattle.tmf_script.specs.Reading.{IsRefused};
ghost use Rattle.tmf_lines.specs.Script.{IsRefusalOf, IsScriptOf};

use std::alloc::Global;
use tmf_model::Script;
use tmf_script::{ParseError, Why, parse};

/// Why a text is not carried out. Lines are counted from 1.
#[derive(Clone, Copy, Debug, PartialEq, Eq)]
pub enum ScriptRefusal {
    NoMemory,
    /// The text is no script, for this reason.
    Refused { line: u32, why: Why },
}

/// The script that the text is.
pub fn read_script(alloc: Global, text: &[u8]) -> Result<Script, ScriptRefusal>
    // What is read is a valid script, and the text is that script's.
    ensures found { IfOk result (λ script. IsScriptOf script text.now) }
    ensures valid { IfOk result IsValidScript }

    // The text of a script is read as that script, unless memory runs out.
    ensures only { (script : Script) → IsScriptOf script text.now
        → MatchResult result (λ read. read ≡ script) (λ refusal. refusal ≡ ScriptRefusal.NoMemory) }

    // Else it is refused as the language says.
    ensures cause { IfErr result (IsRefusalOf text.now) }
    ensures refused { (line : ℕ) (why : Why) → IsRefused text.now line why
        → MatchResult result (λ read. ⊥) (λ refusal. (refusal ≡ ScriptRefusal.Refused line why) ⊎ (refusal ≡ ScriptRefusal.NoMemory)) }
{
    match parse(alloc, text) {
        Ok(script) => Ok(script),
        Err(ParseError::Refusal { line, why }) => Err(ScriptRefusal::Refused { line, why }),
        Err(ParseError::NoMemory) => Err(ScriptRefusal::NoMemory),
    }
}

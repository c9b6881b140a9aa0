//! Laws of the language: what its grammar means for those who write scripts.
ghost use Rattle.std.specs.Prelude.{◌≡◌, ◌⊎◌, ℕ, ◌≤◌, List, ◌∷◌, ◌++◌, length, take, IsTrue};
ghost use Rattle.tmf_model.specs.Script.{IsValidScript};
ghost use Rattle.tmf_model.specs.declared.script.Script.{Script};
ghost use Rattle.tmf_script.specs.declared.fault.Why.{Why};
ghost use Rattle.tmf_script.specs.Bank.{bank_text, bank_script};
ghost use Rattle.tmf_script.specs.Reading.{most_bytes, IsTextOf, FailsAtLine, IsRefused};
ghost use Rattle.tmf_script.specs.Sentences.{sentences_of, IsPlain, SaysTheSame};
ghost use Rattle.tmf_script.specs.Written.{script_sentences, CanBeWritten};
ghost use Rattle.tmf_script.specs.Text.{is_blank, lacks, lines_of, words_of};

/// Each text is one of one script, or it is refused at one line for one reason, and never both.
pub fn one_answer()
    ensures some { (text : List ℕ) → ((script : Script) × IsTextOf text script)
        ⊎ ((line : ℕ) × ((why : Why) × IsRefused text line why)) }
    ensures one_script { (text : List ℕ) (a b : Script) → IsTextOf text a → IsTextOf text b → a ≡ b }
    ensures one_refusal { (text : List ℕ) (m n : ℕ) (a b : Why)
        → IsRefused text m a → IsRefused text n b → (m ≡ n) × (a ≡ b) }
    ensures not_both { (text : List ℕ) (script : Script) (line : ℕ) (why : Why)
        → IsTextOf text script → IsRefused text line why → ⊥ }
{}

/// Comments, empty lines, the ends of lines and the number of blanks change nothing but line numbers.
pub fn only_words_count()
    // Two texts that say the same are the same script's.
    ensures script { (text other : List ℕ) (script : Script)
        → SaysTheSame text other → IsTextOf text script → IsTextOf other script }

    // Or both are refused for the same reason, though the number of the line may differ.
    ensures reason { (text other : List ℕ) (line : ℕ) (why : Why) → SaysTheSame text other
        → IsRefused text line why → (moved : ℕ) × IsRefused other moved why }

    // A blank beside a blank leaves the words as they are.
    ensures blanks { (before behind : List ℕ) (one more : ℕ) → IsTrue (is_blank one) → IsTrue (is_blank more)
        → words_of (before ++ one ∷ more ∷ behind) ≡ words_of (before ++ one ∷ behind) }

    // A carriage return before a line feed leaves the lines as they are.
    ensures returns { (line behind : List ℕ) → IsTrue (lacks 10 line) → IsTrue (lacks 13 line)
        → lines_of (line ++ 13 ∷ 10 ∷ behind) ≡ lines_of (line ++ 10 ∷ behind) }
{}

/// What stands behind a refused line does not mend it: another text with the same lines up to that one is
/// refused there for the same reason.
pub fn no_repair()
    ensures { (text other : List ℕ) (line : ℕ) (why : Why) → FailsAtLine text line why
        → take line (lines_of other) ≡ take line (lines_of text) → length other ≤ most_bytes
        → FailsAtLine other line why }
{}

/// Each valid script can be written: a plain text that has these words, a sentence for each line, is its text.
pub fn each_script_has_words()
    ensures { (text : List ℕ) (script : Script) → IsPlain text → CanBeWritten script
        → sentences_of (lines_of text) ≡ script_sentences script → IsTextOf text script }
{}

/// The text of the bank workload is a script, which one it is, and that it is valid.
pub fn bank_is_a_script()
    ensures script { (n : ℕ) → n ≤ 4095 → IsTextOf (bank_text n) (bank_script n) }
    ensures valid { (n : ℕ) → n ≤ 4095 → IsValidScript (bank_script n) }
{}

//! Laws of the definitions alone, each the contract of a function with nothing in it.

ghost use Rattle.std.specs.Prelude.{◌≡◌, ◌↔◌, ℕ, ◌<◌, Some, [], ◌∷◌};
ghost use Rattle.lc3_table.specs.declared.instr.Instr.{Instr};
ghost use Rattle.lc3_table.specs.Decoding.{instruction_at};
ghost use Rattle.lc3_table.specs.Instructions.{word_of, IsInstruction};
ghost use Rattle.lc3_table.specs.Meaning.{HasWords};
ghost use Rattle.lc3_table.specs.Text.{word_text};

/// No two instructions have one word.
pub fn one_word_each()
    ensures injective { (i j : Instr) → IsInstruction i → IsInstruction j
        → word_of i ≡ word_of j → i ≡ j }
{}

/// The text of a word, read as a source line, is that word alone.
pub fn text_reads_back()
    ensures reads_back { (w : ℕ) → w < 65536 → HasWords (word_text w) (w ∷ []) }
{}

/// The instruction of a word is the one that has this word.
pub fn decoding_is_equality()
    ensures same { (w : ℕ) (i : Instr)
        → (instruction_at w ≡ Some i) ↔ (IsInstruction i × (word_of i ≡ w)) }
{}

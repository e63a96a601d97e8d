//! The words that name programs.
ghost use Rattle.std.specs.Prelude.{◌≡◌, List, ℕ, true, false};
ghost use Rattle.std.specs.Borrow.{Bor};
ghost use Rattle.lab_arguments.specs.Programs.{file_of, input_of, takes_input};
ghost use Rattle.lab_arguments.specs.declared.programs.Console.TheVariants.{File, Standard};

/// Where the console input of a process comes from.
#[derive(Clone, Copy)]
pub enum Console<'a> {
    /// There is none.
    Nowhere,
    /// A file.
    File(&'a str),
    /// Standard input.
    Standard,
}

/// The program file that a word names, and where the console input of its process comes from. The word is `FILE`, or
/// `FILE=INPUT`, split at its first `=`, where an INPUT `-` stands for standard input.
pub fn program_of(word: &str) -> (&str, Console<'_>)
    ensures file { result.0.now ≡ file_of word.now }
    ensures standard { takes_input word.now ≡ true → result.1 ≡ Standard }
    ensures input { takes_input word.now ≡ false → (input : Bor (List ℕ))
        → result.1 ≡ File input → input.now ≡ input_of word.now }
{
    match word.split_once('=') {
        Some((file, "-")) => (file, Console::Standard),
        Some((file, input)) => (file, Console::File(input)),
        None => (word, Console::Nowhere),
    }
}

/// Whether standard input is the console input of the process that a word names.
pub fn takes_input(word: &str) -> bool
    ensures value { result ≡ takes_input word.now }
{
    word.split_once('=').is_some_and(|(_, input)| input == "-")
}

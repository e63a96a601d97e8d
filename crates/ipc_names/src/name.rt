//! Names of queues and semaphores.
ghost use Rattle.std.specs.Prelude.{◌≡◌, IfOk, string_bytes};
ghost use Rattle.std.specs.Prelude.{◌<◌, ◌==◌, All};
ghost use Rattle.std.specs.Cmp.{partial_equiv_from_equiv};
ghost use Rattle.std.specs.Cmp.Lexicographic.{pointwise, nat_list_eq_equiv};
ghost use Rattle.std.specs.List.{list_all};
ghost use Rattle.ipc_names.specs.Name.{IsName, is_name_character, has_name_form, name_read};

use crate::Errno;
use std::alloc::{AllocError, Global};
use std::marker::Model;
use std::sync::ArcStr;

/// The character `/`.
const SLASH: u16 = 0x2f;

/// The greatest number of characters of a name.
const NAME_MAX: usize = 255;

/// The name of a queue or a semaphore, seen as the list of its characters: `/`, and then one or
/// more of x21 to x7E without `/`, at most 255 in all.
pub struct Name {
    text: ArcStr,
}

impl Drop for Name {
    fn drop(self) {
        let Name { text: _ } = self;
    }
}

impl Model for Name {
    ghost use Rattle.std.specs.Prelude.{List, ℕ};
    ghost use Rattle.std.specs.Arc.{arc_str_bytes};
    ghost use Rattle.ipc_names.specs.Name.{IsName};

    ghost Value = { List ℕ };

    ghost view = { λ a. arc_str_bytes a.text };

    ghost invariant = { λ a. IsName (arc_str_bytes a.text) };
}

fn is_name_character(word: u16) -> bool
    ensures character { result ≡ is_name_character word }
{
    (0x21..=0x7e).contains(&word) && word != SLASH
}

fn all_name_characters(words: &[u16]) -> bool
    ensures characters { result ≡ list_all is_name_character words.now }
{
    words.iter().all(|word| is_name_character(*word))
}

fn has_name_form(words: &[u16]) -> bool
    ensures form { result ≡ has_name_form words.now }
{
    match words {
        [] => false,
        [first, rest @ ..] => *first == SLASH && !rest.is_empty() && all_name_characters(rest),
    }
}

/// The text of words that are characters of ASCII.
fn ascii_text(alloc: Global, words: &[u16]) -> Result<String, AllocError>
    requires ascii { All (λ word. word < 128) words.now }
    ensures text { IfOk result (λ text. string_bytes text ≡ words.now) }
{
    let mut text = String::new(alloc);
    for word in words {
        text.push(char::from(*word as u8))?;
    }
    Ok(text)
}

impl Name {
    /// The name that words spell, one character a word, without the zero word that ends it in
    /// memory. More than 255 words are ENAMETOOLONG, else words of another form EINVAL.
    pub fn read(alloc: Global, words: &[u16]) -> Result<Result<Name, Errno>, AllocError>
        ensures name { IfOk result (λ read. read ≡ name_read words.now) }
    {
        if words.len() > NAME_MAX {
            return Ok(Err(Errno::NameTooLong));
        }
        if !has_name_form(words) {
            return Ok(Err(Errno::Invalid));
        }
        let text = ArcStr::from_string(ascii_text(alloc, words)?)?;
        Ok(Ok(Name { text }))
    }

    /// The characters.
    pub fn text(&self) -> &str
        ensures value { result.now ≡ self.now }
        ensures form { IsName self.now }
    {
        self.text.as_str()
    }

    /// The same name, as a clone is. Takes no memory: an error is that it is shared 2^63 times.
    pub fn copy(&self) -> Result<Name, AllocError>
        ensures equal { IfOk result (λ copy. copy ≡ self.now) }
    {
        self.clone()
    }
}

/// The same name, which is shared. Takes no memory: an error is that it is shared 2^63 times.
impl Clone for Name {
    ghost is_clone = { λ name copy. copy ≡ name };

    #[inline(always)]
    fn clone(&self) -> Result<Name, AllocError> {
        let text = self.text.clone()?;
        Ok(Name { text })
    }
}

impl PartialEq for Name {
    ghost eq = { pointwise ◌==◌ };

    ghost laws = { partial_equiv_from_equiv nat_list_eq_equiv };

    fn eq(&self, other: &Name) -> bool {
        self.text() == other.text()
    }
}

impl Eq for Name {
    ghost laws = { nat_list_eq_equiv };
}

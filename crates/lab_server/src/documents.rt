//! The texts that an editor has open.
ghost use Rattle.std.specs.Prelude.{◌≡◌, ◌<◌, OnOk, OnErr, IfOk, IfSome, [], length, position};
ghost use Rattle.std.specs.Option.{option_map};
ghost use Rattle.lab_server.specs.Documents.{is_of, text_of, put, without};
ghost use Rattle.lab_server.specs.Private.Seen.{document_seen, documents_of};

use std::alloc::{AllocError, Global};

/// A text that is open, and the name by which the editor calls it.
#[derive(Drop)]
pub(crate) struct Open {
    pub uri: String,
    pub text: String,
}

/// The documents that are open, each once.
#[derive(Drop)]
pub(crate) struct Documents {
    open: Vec<Open>,
}

fn is_of(document: &Open, uri: &str) -> bool
    ensures value { result ≡ is_of uri.now (document_seen document.now) }
{
    document.uri.as_str() == uri
}

fn open_document(alloc: Global, uri: &str, text: &str) -> Result<Open, AllocError>
    ensures document { IfOk result (λ d. document_seen d ≡ (uri.now, text.now)) }
{
    Ok(Open {
        uri: String::from_str(alloc, uri)?,
        text: String::from_str(alloc, text)?,
    })
}

fn place_in(documents: &[Open], uri: &str) -> Option<usize>
    ensures place { result ≡ position (λ d. is_of uri.now (document_seen d)) documents.now }
    ensures within { IfSome result (λ place. place < length documents.now) }
{
    documents.iter().position(|document| is_of(document, uri))
}

impl Documents {
    pub fn new(alloc: Global) -> Documents
        ensures none { documents_of result ≡ [] }
    {
        Documents {
            open: Vec::new(alloc),
        }
    }

    fn place_of(&self, uri: &str) -> Option<usize>
        ensures place { result ≡ position (is_of uri.now) (documents_of self.now) }
        ensures within { IfSome result (λ place. place < length self.now.open.items) }
    {
        place_in(&self.open, uri)
    }

    /// The text of the document of this name, if it is open.
    pub fn text_of(&self, uri: &str) -> Option<&str>
        ensures text { option_map (λ s. s.now) result ≡ text_of uri.now (documents_of self.now) }
    {
        let place = self.place_of(uri)?;
        Some(self.open[place].text.as_str())
    }

    /// Opens a document, in place of one of the same name. If memory is refused, the documents stay as they are.
    #[tactic(auto, using(crate::proofs::DocumentLemmas::set_seen))]
    pub fn put(&mut self, alloc: Global, uri: &str, text: &str) -> Result<(), AllocError>
        ensures opened { OnOk result (documents_of self.new
            ≡ put uri.now text.now (documents_of self.old)) }
        ensures kept { OnErr result (self.new.open.items ≡ self.old.open.items) }
    {
        let document = open_document(alloc, uri, text)?;
        match self.place_of(uri) {
            Some(place) => self.open[place] = document,
            None => self.open.push(document)?,
        }
        Ok(())
    }

    /// Closes the document of this name.
    #[tactic(auto, using(crate::proofs::DocumentLemmas::remove_seen))]
    pub fn close(&mut self, uri: &str)
        ensures closed { documents_of self.new ≡ without uri.now (documents_of self.old) }
    {
        if let Some(place) = self.place_of(uri) {
            self.open.remove(place);
        }
    }
}

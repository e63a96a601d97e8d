//! Outputs of processes, which share what they have in common.
ghost use Rattle.std.specs.Prelude.{◌≡◌, ◌<◌, ◌≤◌, ◌+◌, [], ◌∷◌, ◌++◌, Some, IfOk, IfSome, get_or, length, map, slice_get, take};
ghost use Rattle.lab_states.specs.Private.Outputs.{AreChained, Extends, joined, outputs_of};

use crate::row::place_of;
use ipc_store::Index;
use std::alloc::{AllocError, Global};
use std::hash::{FoldHasher, Hasher};
use std::marker::Model;
use std::mem::size_of;

/// How many bytes a piece has: with the number of the output before it, it takes 64.
pub(crate) const PIECE: usize = 60;

/// A piece of an output: it stands behind the output with a number.
#[derive(Clone, Copy, Drop, PartialEq)]
pub struct Piece {
    pub before: u32,
    pub bytes: [u8; PIECE],
}

/// The number of an output, and how many bytes of it are new.
#[derive(Clone, Copy, Drop)]
pub struct Shared {
    pub number: u32,
    pub len: usize,
}

/// Outputs that are made of whole pieces, each with a number: that of the empty one is 0, and each
/// other is a piece behind another, which is kept once.
#[derive(Drop)]
pub struct Outputs {
    pieces: Vec<Piece>,
    index: Index,
}

impl Model for Outputs {
    ghost use Rattle.std.specs.Prelude.{ℕ, List};
    ghost use Rattle.lab_states.specs.Private.Outputs.{AreChained, outputs_of};

    ghost Value = { List (List ℕ) };

    ghost view = { λ a. outputs_of a.pieces.items };

    ghost invariant = { λ a. AreChained a.pieces.items };
}

/// The piece of an output from a place on.
fn piece_from(before: u32, output: &[u8], at: usize) -> Piece
    requires within { at + PIECE ≤ length output.now }
    ensures before { result.before ≡ before }
    ensures bytes { take (at + PIECE) output.now ≡ take at output.now ++ result.bytes }
{
    let mut bytes = [0; PIECE];
    bytes.copy_from_slice(&output[at..at + PIECE]);
    Piece { before, bytes }
}

/// A digest that depends on a piece alone.
fn digest_of(piece: &Piece) -> u64 {
    let mut hasher = FoldHasher::default();
    hasher.write_u32(piece.before);
    hasher.write(&piece.bytes);
    hasher.finish()
}

/// The pieces of an output, the last first.
fn path_to(alloc: Global, pieces: &[Piece], number: u32) -> Result<Vec<&Piece>, AllocError>
    requires chained { AreChained pieces.now }
    ensures path { IfOk result (λ path.
        joined (map (λ p. p.now) path.items) ≡ get_or (outputs_of pieces.now) number []) }
{
    let mut path = Vec::new(alloc);
    let mut at = number as usize;
    while at > 0 {
        let Some(piece) = pieces.get(at - 1) else {
            return Ok(path);
        };
        path.push(piece)?;
        at = piece.before as usize;
    }
    Ok(path)
}

/// The bytes of pieces, the last of which stands first, and others behind them.
fn joined(alloc: Global, mut path: Vec<&Piece>, rest: &[u8]) -> Result<Vec<u8>, AllocError>
    ensures bytes { IfOk result (λ bytes.
        bytes.items ≡ joined (map (λ p. p.now) path.entry.items) ++ rest.now) }
{
    let mut bytes = Vec::new(alloc);
    bytes.reserve(path.len().saturating_mul(PIECE).saturating_add(rest.len()))?;
    while let Some(piece) = path.pop() {
        bytes.extend_from_slice(&piece.bytes)?;
    }
    bytes.extend_from_slice(rest)?;
    Ok(bytes)
}

impl Outputs {
    /// The empty one.
    pub fn new(alloc: Global) -> Result<Outputs, AllocError>
        ensures empty { IfOk result (λ outputs. outputs ≡ [] ∷ []) }
    {
        Ok(Outputs {
            pieces: Vec::new(alloc),
            index: Index::new(alloc)?,
        })
    }

    /// The number of the output that ends in a piece, if it is kept.
    fn find(&self, piece: &Piece, digest: u64) -> Option<usize>
        ensures found { IfSome result (λ number. slice_get self.now number
            ≡ Some (get_or self.now piece.now.before [] ++ piece.now.bytes)) }
    {
        let mut number = self.index.newest(digest);
        while number > 0 {
            if let Some(kept) = self.pieces.get(number - 1) {
                if kept == piece {
                    return Some(number);
                }
            }
            number = self.index.older(number);
        }
        None
    }

    /// Adds the output that ends in a piece; with its number.
    fn add(&mut self, piece: Piece, digest: u64) -> Result<usize, AllocError>
        requires before { piece.before < length self.old }
        ensures extends { Extends self.old self.new }
        ensures added { IfOk result (λ number. slice_get self.new number
            ≡ Some (get_or self.old piece.before [] ++ piece.bytes)) }
    {
        self.pieces.reserve(1)?;
        self.index.add(digest)?;
        self.pieces.push_reserved(piece);
        Ok(self.pieces.len())
    }

    /// Keeps the output that ends in a piece; with its number.
    fn keep_piece(&mut self, piece: Piece) -> Result<u32, AllocError>
        requires before { piece.before < length self.old }
        ensures extends { Extends self.old self.new }
        ensures kept { IfOk result (λ number. slice_get self.new number
            ≡ Some (get_or self.old piece.before [] ++ piece.bytes)) }
    {
        let digest = digest_of(&piece);
        if let Some(number) = self.find(&piece, digest) {
            return place_of(number);
        }
        let number = self.add(piece, digest)?;
        place_of(number)
    }

    /// Keeps the output with a number and behind it as much of another as is made of whole pieces.
    pub fn keep(&mut self, before: u32, output: &[u8]) -> Result<Shared, AllocError>
        requires before { before < length self.old }
        ensures extends { Extends self.old self.new }
        ensures kept { IfOk result (λ shared. slice_get self.new shared.number
            ≡ Some (get_or self.old before [] ++ take shared.len output.now)) }
        ensures within { IfOk result (λ shared. shared.len ≤ length output.now) }
    {
        let mut number = before;
        let mut len = 0;
        while output.len() - len >= PIECE {
            number = self.keep_piece(piece_from(number, output, len))?;
            len += PIECE;
        }
        Ok(Shared { number, len })
    }

    /// The output with a number, and bytes behind it.
    pub fn whole(&self, alloc: Global, number: u32, rest: &[u8]) -> Result<Vec<u8>, AllocError>
        ensures whole { IfOk result (λ whole.
            whole.items ≡ get_or self.now number [] ++ rest.now) }
    {
        let path = path_to(alloc, self.pieces.as_slice(), number)?;
        joined(alloc, path, rest)
    }

    /// About how many bytes they take.
    pub fn size(&self) -> usize {
        size_of::<Piece>()
            .saturating_add(Index::ENTRY)
            .saturating_mul(self.pieces.len())
    }

    /// Lets go of what only `keep` needs.
    pub fn forget(&mut self, alloc: Global)
        ensures same { self.new ≡ self.old }
    {
        self.index = Index::none(alloc);
    }
}

//! The labels of a text with their addresses, in the order of their definitions, and the lines that define them.

ghost use Rattle.std.specs.Prelude.{◌≡◌, ℕ, List, [], ◌∷◌, ◌++◌, OnOk, OnErr, string_bytes, false, length, option_map, slice_get, Some};
ghost use Rattle.lc3_asm.specs.Texts.{value, entry, label_of};
ghost use Rattle.lc3_asm.specs.Views.{seen_line};
ghost use Rattle.lc3_asm.specs.Symbols.{symbol_list};
ghost use Rattle.lc3_asm.specs.Private.Tables.{is_defined};
ghost use Rattle.lc3_asm.specs.Listings.{symbol_line, symbols_text};

use crate::line::Line;
use indexmap::IndexMap;
use lc3_word::Hex;
use std::alloc::{AllocError, Global};
use std::fmt::Write;
use std::marker::Model;

/// The labels of a text in upper case with their addresses, in the order of their definitions.
#[derive(Drop)]
pub struct Symbols {
    addresses: IndexMap<String, u16>,
}

impl Model for Symbols {
    ghost Value = { List (List ℕ × ℕ) };

    ghost view = { λ s. symbol_list s.addresses.entries };
}

impl Symbols {
    pub(crate) fn new(alloc: Global) -> Self
        ensures empty { result ≡ [] }
    {
        Symbols {
            addresses: IndexMap::new(alloc),
        }
    }

    /// How many labels there are.
    pub fn len(&self) -> usize
        ensures count { result ≡ length self.now }
    {
        self.addresses.len()
    }

    /// The label at this place, from 0, and its address.
    pub fn get(&self, index: usize) -> Option<(&str, u16)>
        ensures label { option_map (λ e. (e.0.now, e.1)) result ≡ slice_get self.now index }
    {
        let (name, address) = self.addresses.get_index(index)?;
        Some((name.as_str(), *address))
    }

    /// The address of a label, which is written in upper case.
    #[tactic(auto, using(crate::proofs::SymbolsLemmas::value_listed))]
    pub fn value(&self, name: &str) -> Option<u16>
        ensures address { result ≡ value self.now name.now }
    {
        self.addresses.get(name).copied()
    }

    #[tactic(auto, using(crate::proofs::SymbolsLemmas::value_listed))]
    pub(crate) fn contains(&self, name: &str) -> bool
        ensures value { result ≡ is_defined self.now name.now }
    {
        self.addresses.contains_key(name)
    }

    pub(crate) fn define(&mut self, name: String, address: u16) -> Result<(), AllocError>
        requires undefined { is_defined self.old (string_bytes name) ≡ false }
        ensures ok { OnOk result (self.new ≡ self.old ++ (string_bytes name, address) ∷ []) }
        ensures err { OnErr result (self.new ≡ self.old) }
    {
        self.addresses.insert(name, address)?;
        Ok(())
    }

    pub(crate) fn define_label(
        &mut self,
        alloc: Global,
        line: &Line,
        address: u16,
    ) -> Result<(), AllocError>
        requires undefined { (name : List ℕ) → label_of (seen_line line.now) ≡ Some name
            → is_defined self.old name ≡ false }
        ensures added { OnOk result
            (self.new ≡ self.old ++ entry (label_of (seen_line line.now)) address) }
    {
        match line.label() {
            Some(label) => self.define(String::from_str(alloc, label)?, address),
            None => Ok(()),
        }
    }

    /// Appends a line for each label: its name and its address.
    pub fn push_lines(&self, text: &mut String) -> Result<(), AllocError>
        ensures text { OnOk result (string_bytes text.new
            ≡ string_bytes text.old ++ symbols_text self.now) }
    {
        push_lines(text, &self.addresses)
    }
}

/// Lines, the labels that they define, and the address of each line.
#[derive(Drop)]
pub struct Placed {
    pub lines: Vec<Line>,
    pub symbols: Symbols,
    pub places: Vec<u16>,
}

impl Placed {
    pub fn new(alloc: Global) -> Self
        ensures lines { result.lines.items ≡ [] }
        ensures symbols { result.symbols ≡ [] }
        ensures places { result.places.items ≡ [] }
    {
        Placed {
            lines: Vec::new(alloc),
            symbols: Symbols::new(alloc),
            places: Vec::new(alloc),
        }
    }

    pub fn push(&mut self, alloc: Global, line: Line, address: u16) -> Result<(), AllocError>
        requires undefined { (name : List ℕ) → label_of (seen_line line) ≡ Some name
            → is_defined self.old.symbols name ≡ false }
        ensures lines { OnOk result (self.new.lines.items ≡ self.old.lines.items ++ line ∷ []) }
        ensures symbols { OnOk result (self.new.symbols
            ≡ self.old.symbols ++ entry (label_of (seen_line line)) address) }
        ensures places { OnOk result (self.new.places.items
            ≡ self.old.places.items ++ address ∷ []) }
    {
        self.symbols.define_label(alloc, &line, address)?;
        self.places.push(address)?;
        self.lines.push(line)?;
        Ok(())
    }

    /// The labels, where the lines are no longer needed.
    pub fn into_symbols(self) -> Symbols
        ensures symbols { result ≡ self.symbols }
    {
        let Placed { symbols, .. } = self;
        symbols
    }
}

fn push_lines(text: &mut String, addresses: &IndexMap<String, u16>) -> Result<(), AllocError>
    ensures text { OnOk result (string_bytes text.new
        ≡ string_bytes text.old ++ symbols_text (symbol_list addresses.now.entries)) }
{
    for i in 0..addresses.len() {
        let Some((name, address)) = addresses.get_index(i) else {
            unreachable!()
        };
        push_line(text, name.as_str(), *address)?;
    }
    Ok(())
}

#[tactic(auto, unfolding(crate::specs::Listings::symbol_line))]
fn push_line(text: &mut String, name: &str, address: u16) -> Result<(), AllocError>
    ensures text { OnOk result (string_bytes text.new
        ≡ string_bytes text.old ++ symbol_line name.now address) }
{
    write!(text, "{name} {}\n", Hex(address))
}

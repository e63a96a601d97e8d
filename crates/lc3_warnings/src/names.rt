//! The labels that lines name.
ghost use Rattle.std.specs.Prelude.{◌≡◌, ℕ, List, [], ◌||◌, bytes_eq, string_bytes, map, OnOk, IfOk, option_map};
ghost use Rattle.std.specs.List.{list_any};
ghost use Rattle.lc3_warnings.specs.Private.Names.{is_among};
ghost use Rattle.lc3_asm.specs.Views.{seen_line, seen_operand};
ghost use Rattle.lc3_warnings.specs.Labels.{is_label, named, called, defines_one};
ghost use Rattle.lc3_warnings.specs.Private.Statements.{statement_of};

use indexmap::IndexSet;
use lc3_asm::{Line, Operand};
use lc3_table::Operation;
use std::alloc::{AllocError, Global};
use std::marker::Model;

/// Labels, in upper case.
#[derive(Drop)]
pub struct Names {
    words: IndexSet<String>,
}

impl Model for Names {
    ghost Value = { List (List ℕ) };

    ghost view = { λ s. map string_bytes s.words.keys };
}

impl Names {
    pub fn new(alloc: Global) -> Self
        ensures empty { result ≡ [] }
    {
        let words = IndexSet::new(alloc);
        Names { words }
    }

    pub fn contains(&self, name: &str) -> bool
        ensures value { result ≡ is_among self.now name.now }
    {
        self.words.contains(name)
    }

    pub fn insert(&mut self, alloc: Global, name: &str) -> Result<(), AllocError>
        ensures added { OnOk result ((word : List ℕ) →
            is_among self.new word ≡ (is_among self.old word || bytes_eq word name.now)) }
    {
        self.words.insert(String::from_str(alloc, name)?)?;
        Ok(())
    }

    fn add_labels(&mut self, alloc: Global, operands: &[Operand]) -> Result<(), AllocError>
        ensures added { OnOk result ((name : List ℕ) → is_among self.new name
            ≡ (is_among self.old name || list_any (is_label name) (map seen_operand operands.now))) }
    {
        for operand in operands {
            if let Operand::Label(name) = operand {
                self.insert(alloc, name.as_str())?;
            }
        }
        Ok(())
    }

    pub fn has_label_of(&self, line: &Line) -> bool
        ensures value { result ≡ defines_one (is_among self.now) (seen_line line.now) }
    {
        line.label().is_some_and(|name| self.contains(name))
    }
}

pub fn named(alloc: Global, lines: &[Line]) -> Result<Names, AllocError>
    ensures all { IfOk result (λ names. is_among names ≡ named (map seen_line lines.now)) }
{
    let mut names = Names::new(alloc);
    for line in lines {
        if let Line::Operates { operands, .. } = line {
            names.add_labels(alloc, operands)?;
        }
    }
    Ok(names)
}

pub fn called(alloc: Global, lines: &[Line]) -> Result<Names, AllocError>
    ensures all { IfOk result (λ names. is_among names ≡ called (map seen_line lines.now)) }
{
    let mut names = Names::new(alloc);
    for line in lines {
        if let Some((Operation::JumpSubroutine, operands)) = statement_of(line) {
            names.add_labels(alloc, operands)?;
        }
    }
    Ok(names)
}

/// The operation of a line with its operands, if it has one.
pub fn statement_of(line: &Line) -> Option<(Operation, &[Operand])>
    ensures value { option_map (λ s. (s.0, map seen_operand s.1.now)) result
        ≡ statement_of (seen_line line.now) }
{
    match line {
        Line::Operates {
            operation,
            operands,
            ..
        } => Some((*operation, operands)),
        _ => None,
    }
}

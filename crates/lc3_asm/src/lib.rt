//! The assembler: a source text, as an image with its symbols and rows.
//!
//! The source language is the LC-3's of Patt and Patel (2nd edition, appendix A), with the directives,
//! escapes and forms of numbers of docs/source-language.md. What a text means stands in specs/Texts.antt,
//! what a line means in the specs of `lc3_table`.
#![tactic(auto)]

mod assembled;
pub mod laws;
mod line;
mod passes;
mod reader;
mod statement;
mod symbols;

pub use assembled::{Assembled, Row, listing};
pub use line::{Line, Token, first_token, without_separators};
pub use passes::{
    AsmFault, LineError, LineFault, assemble, faults, faults_of, first_line, line_count, reading,
};
pub use reader::{Reader, printable};
pub use statement::{
    LABEL_LENGTH, Operand, fault_in, first_character, is_label, register, token_operand,
    token_operation, upper, without_colon,
};
pub use symbols::Symbols;

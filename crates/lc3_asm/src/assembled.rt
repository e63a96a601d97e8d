//! An assembled text, and its listing.
ghost use Rattle.std.specs.Prelude.{◌≡◌, ◌++◌, OnOk, IfOk, string_bytes, ◌+◌, ◌-ℤ◌, pos, map, [], ◌∷◌};
ghost use Rattle.lc3_asm.specs.Texts.{Program, value};
ghost use Rattle.lc3_asm.specs.Listings.{word_line, words_text, rows_text, listing_text};
ghost use Rattle.lc3_table.specs.Meaning.{offset_between, label_number, resolved_field, resolved_fields, words_of_fields, words};
ghost use Rattle.lc3_asm.specs.Results.{Gives};
ghost use Rattle.lc3_asm.specs.Views.{seen_operand, seen_line};

use crate::line::Line;
use crate::passes::LineError;
use crate::statement::{Operand, is_between};
use crate::symbols::Symbols;
use lc3_table::{Fault, Field, Form, Operation, WordText, encode, instruction, low_word};
use lc3_word::{Hex, Image, add};
use std::alloc::{AllocError, Global};
use std::fmt::Write;
use std::marker::Model;

/// A source line that has words.
#[derive(Clone, Copy)]
pub struct Row {
    /// The number of the line, from 1.
    pub line: usize,
    /// The address of its first word.
    pub address: u16,
    /// How many words it has, 1 or more.
    pub count: usize,
}

/// What a source text is assembled to: an image, the labels and the lines that the words come from.
pub struct Assembled {
    image: Image,
    symbols: Symbols,
    rows: Vec<Row>,
}

impl Drop for Assembled {
    fn drop(self) {
        let Assembled {
            image: _,
            symbols: _,
            rows: _,
        } = self;
    }
}

impl Model for Assembled {
    ghost Value = { Program };

    ghost view = { λ a. record { image = a.image; symbols = a.symbols; rows = a.rows.items } };
}

impl Assembled {
    pub(crate) fn new(image: Image, symbols: Symbols, rows: Vec<Row>) -> Self
        ensures value { result ≡ record { image = image; symbols = symbols; rows = rows.items } }
    {
        Assembled {
            image,
            symbols,
            rows,
        }
    }

    /// The words, from the address that `.ORIG` names on.
    pub fn image(&self) -> &Image
        ensures image { result.now ≡ self.now.image }
    {
        &self.image
    }

    /// The labels in upper case with their addresses, in the order of their definitions.
    pub fn symbols(&self) -> &Symbols
        ensures symbols { result.now ≡ self.now.symbols }
    {
        &self.symbols
    }

    /// The lines that have words, in order.
    pub fn rows(&self) -> &[Row]
        ensures rows { result.now ≡ self.now.rows }
    {
        self.rows.as_slice()
    }
}

#[tactic(auto, unfolding(crate::specs::Listings::word_line))]
fn push_word(listing: &mut String, address: u16, word: u16, line: usize) -> Result<(), AllocError>
    ensures text { OnOk result (string_bytes listing.new
        ≡ string_bytes listing.old ++ word_line address word line) }
{
    let place = Hex(address);
    let content = Hex(word);
    let shown = WordText(word);
    write!(listing, "{place} {content} {line} {shown}\n")
}

fn push_words(
    listing: &mut String,
    address: u16,
    words: &[u16],
    line: usize,
) -> Result<(), AllocError>
    ensures text { OnOk result (string_bytes listing.new
        ≡ string_bytes listing.old ++ words_text address line words.now) }
{
    let mut address = address;
    for word in words {
        push_word(listing, address, *word, line)?;
        address = add(address, 1);
    }
    Ok(())
}

fn push_rows(listing: &mut String, rows: &[Row], words: &[u16]) -> Result<(), AllocError>
    ensures text { OnOk result (string_bytes listing.new
        ≡ string_bytes listing.old ++ rows_text rows.now words.now) }
{
    let mut rest = words;
    for row in rows {
        let (words, after) = rest.split_at(row.count.min(rest.len()));
        push_words(listing, row.address, words, row.line)?;
        rest = after;
    }
    Ok(())
}

/// The listing of an assembled text.
///
/// A line for each word of the image, as `x3000 xE002 2 LEA R0,#2`: its address, the word, the number
/// of the source line that it comes from, and its text as an instruction or as data. Then a line for
/// each label, as `M x3003`. It fails only for want of memory.
pub fn listing(alloc: Global, assembled: &Assembled) -> Result<String, AllocError>
    ensures text { IfOk result (λ s. string_bytes s ≡ listing_text assembled.now) }
{
    let mut listing = String::new(alloc);
    push_rows(&mut listing, &assembled.rows, assembled.image.words())?;
    assembled.symbols.push_lines(&mut listing)?;
    Ok(listing)
}

/// The offset from the line at an address to a target, where the field has room for it.
fn offset(low: i64, high: i64, address: u16, target: u16) -> Result<i64, Fault>
    ensures value { result ≡ offset_between low high (pos target -ℤ pos (address + 1)) }
{
    let offset = i64::from(target) - (i64::from(address) + 1);
    is_between(low, high, offset)
        .then_some(offset)
        .ok_or(Fault::OffsetRange)
}

fn label_number(form: Form, address: u16, target: u16) -> Result<i64, Fault>
    ensures value { result ≡ label_number form address target }
{
    match form {
        Form::Target => offset(-256, 255, address, target),
        Form::FarTarget => offset(-1024, 1023, address, target),
        _ => Ok(i64::from(target)),
    }
}

fn resolved_field(
    symbols: &Symbols,
    address: u16,
    form: Form,
    operand: &Operand,
) -> Result<Field, Fault>
    ensures exact { result
        ≡ resolved_field (value symbols.now) address form (seen_operand operand.now) }
{
    match operand {
        Operand::Register(register) => Ok(Field::Register(*register)),
        Operand::Number(number) => Ok(Field::Number(*number)),
        Operand::Characters(_) => Ok(Field::Nothing),
        Operand::Label(name) => {
            let target = symbols.value(name.as_str()).ok_or(Fault::Undefined)?;
            Ok(Field::Number(label_number(form, address, target)?))
        }
    }
}

fn resolved_fields(
    alloc: Global,
    symbols: &Symbols,
    address: u16,
    forms: &[Form],
    operands: &[Operand],
) -> Result<Vec<Field>, LineError>
    ensures exact { Gives (λ v. v.items) result
        (resolved_fields (value symbols.now) address forms.now (map seen_operand operands.now)) }
{
    let mut found = Vec::new(alloc);
    for i in 0..forms.len().min(operands.len()) {
        match resolved_field(symbols, address, forms[i], &operands[i]) {
            Ok(field) => found.push(field)?,
            Err(fault) => return Err(LineError::Fault(fault)),
        }
    }
    Ok(found)
}

/// The characters of a string, a word each, and x0000.
fn text_words(alloc: Global, characters: &[u8]) -> Result<Vec<u16>, AllocError>
    ensures words { IfOk result (λ v. v.items ≡ characters.now ++ 0 ∷ []) }
{
    let mut words: Vec<u16> = characters.iter().map(|it| u16::from(*it)).collect(alloc)?;
    words.push(0)?;
    Ok(words)
}

fn words_of_fields(
    alloc: Global,
    operation: Operation,
    operands: &[Operand],
    fields: &[Field],
) -> Result<Vec<u16>, AllocError>
    ensures words { IfOk result
        (λ v. v.items ≡ words_of_fields operation (map seen_operand operands.now) fields.now) }
{
    match (operation, operands, fields) {
        (Operation::Text, [Operand::Characters(characters)], _) => text_words(alloc, characters),
        (Operation::Fill, _, [Field::Number(number)]) => Ok(vec![in alloc; low_word(*number)]?),
        (Operation::Block, [Operand::Number(count)], _) =>
            vec![in alloc; 0; count.unsigned_abs() as usize],
        _ => match instruction(operation, fields) {
            Some(instr) => Ok(vec![in alloc; encode(instr)]?),
            None => Ok(Vec::new(alloc)),
        },
    }
}

pub fn line_words(
    alloc: Global,
    symbols: &Symbols,
    address: u16,
    line: &Line,
) -> Result<Vec<u16>, LineError>
    ensures exact { Gives (λ v. v.items) result
        (words (value symbols.now) address (seen_line line.now)) }
{
    let Line::Operates {
        operation,
        operands,
        ..
    } = line
    else {
        return Ok(Vec::new(alloc));
    };
    let fields = resolved_fields(alloc, symbols, address, operation.forms(), operands)?;
    Ok(words_of_fields(alloc, *operation, operands, &fields)?)
}

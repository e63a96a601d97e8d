//! A whole page.
ghost use Rattle.std.specs.Prelude.{◌≡◌, ◌++◌, IfOk, OnOk, flat_map};
ghost use Rattle.lab_template.specs.Pages.{around, data_block, safe, limit, limit_script, page_text, safe_byte};

use crate::template::Template;
use crate::{MOST_END_BYTES, MOST_ENDS, MOST_WHOLE};
use std::alloc::{AllocError, Global};

const DATA: &str = r##"<script type="application/json" id="data">
"##;

const DATA_END: &str = r##"
</script>"##;

fn push_parts(bytes: &mut Vec<u8>, parts: &[&str]) -> Result<(), AllocError>
    ensures bytes { OnOk result (bytes.new.items
        ≡ bytes.old.items ++ flat_map (λ part. part.now) parts.now) }
{
    for part in parts {
        bytes.extend_from_slice(part.as_bytes())?;
    }
    Ok(())
}

#[tactic(auto, unfolding(crate::specs::Pages::data_block))]
fn push_data(bytes: &mut Vec<u8>, json: &[u8]) -> Result<(), AllocError>
    ensures bytes { OnOk result (bytes.new.items
        ≡ bytes.old.items ++ data_block (safe json.now)) }
{
    bytes.extend_from_slice(DATA.as_bytes())?;
    push_safe(bytes, json)?;
    bytes.extend_from_slice(DATA_END.as_bytes())
}

#[tactic(auto, unfolding(crate::specs::Pages::limit))]
fn push_limit(bytes: &mut Vec<u8>, name: &str, most: usize) -> Result<(), AllocError>
    ensures bytes { OnOk result (bytes.new.items ≡ bytes.old.items ++ limit name.now most) }
{
    let text = format!(in *bytes.allocator(); "const {name} = {most};")?;
    bytes.extend_from_slice(text.as_bytes())
}

#[tactic(auto, unfolding(crate::specs::Pages::limit_script))]
fn push_limit_script(bytes: &mut Vec<u8>) -> Result<(), AllocError>
    ensures bytes { OnOk result (bytes.new.items ≡ bytes.old.items ++ limit_script) }
{
    push_limit(bytes, "MOST_WHOLE", MOST_WHOLE as usize)?;
    push_limit(bytes, "MOST_ENDS", MOST_ENDS)?;
    push_limit(bytes, "MOST_END_BYTES", MOST_END_BYTES)
}

/// The page with these data, as JSON, by a template.
pub fn page_with(alloc: Global, template: &Template<'_>, json: &[u8]) -> Result<Vec<u8>, AllocError>
    ensures page { IfOk result (λ v. v.items ≡ page_text (around template.now) json.now) }
{
    let mut bytes = Vec::new(alloc);
    push_parts(&mut bytes, template.start)?;
    push_data(&mut bytes, json)?;
    push_parts(&mut bytes, template.reading)?;
    push_limit_script(&mut bytes)?;
    push_parts(&mut bytes, template.showing)?;
    Ok(bytes)
}

/// What stands for a `<` in JSON; it can only be in a string there.
const LESS_THAN: &[u8] = b"\\u003C";

#[tactic(auto, unfolding(crate::specs::Pages::safe_byte))]
fn push_byte(bytes: &mut Vec<u8>, byte: u8) -> Result<(), AllocError>
    ensures bytes { OnOk result (bytes.new.items ≡ bytes.old.items ++ safe_byte byte) }
{
    if byte == b'<' {
        bytes.extend_from_slice(LESS_THAN)
    } else {
        Ok(bytes.push(byte)?)
    }
}

/// Adds a text of JSON, in which each `<` is escaped.
pub fn push_safe(bytes: &mut Vec<u8>, json: &[u8]) -> Result<(), AllocError>
    ensures bytes { OnOk result (bytes.new.items ≡ bytes.old.items ++ safe json.now) }
{
    for byte in json {
        push_byte(bytes, *byte)?;
    }
    Ok(())
}

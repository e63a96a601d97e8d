//! What the data of a page are made of: values of JSON.
ghost use Rattle.std.specs.Prelude.{◌≡◌, ◌<◌, ◌++◌, ℕ, List, IfOk, OnOk, map, option_to_list};
ghost use Rattle.std.specs.Option.{option_map};
ghost use Rattle.serde_json.specs.Data.{Data};
ghost use Rattle.serde_json.specs.View.{view};
ghost use Rattle.lab_moments.specs.Values.{all_below, block_data, list, natural};

use lab_sched::Block;
use serde_json::{Value, json};
use std::alloc::{AllocError, Global};

/// What stands in the data of a page.
pub trait AsData {
    /// The form that it has there.
    ghost form: { Self → Data };

    fn value(&self, alloc: Global) -> Result<Value, AllocError>
        ensures value { IfOk result (λ v. view v ≡ form self.now) };
}

impl AsData for u8 {
    ghost form = { natural };

    fn value(&self, _alloc: Global) -> Result<Value, AllocError> {
        Ok(Value::from(*self))
    }
}

impl AsData for u16 {
    ghost form = { natural };

    fn value(&self, _alloc: Global) -> Result<Value, AllocError> {
        Ok(Value::from(*self))
    }
}

impl AsData for u32 {
    ghost form = { natural };

    fn value(&self, _alloc: Global) -> Result<Value, AllocError> {
        Ok(Value::from(*self))
    }
}

impl AsData for usize {
    ghost form = { natural };

    fn value(&self, _alloc: Global) -> Result<Value, AllocError> {
        Ok(Value::from(*self))
    }
}

impl AsData for Block {
    ghost form = { block_data };

    fn value(&self, alloc: Global) -> Result<Value, AllocError> {
        json!(in alloc; [self.pid, self.count])
    }
}

/// A list of what stands in the data of a page.
pub fn list_value<T: AsData>(alloc: Global, items: &[T]) -> Result<Value, AllocError>
    ensures value { IfOk result (λ v. view v ≡ list (map T.form items.now)) }
{
    let mut values = Vec::new(alloc);
    for item in items {
        values.push(item.value(alloc)?)?;
    }
    Ok(Value::Array(values))
}

/// Adds a value, where there is one.
pub fn push_some(values: &mut Vec<Value>, value: Option<Value>) -> Result<(), AllocError>
    ensures added { OnOk result (map view values.new.items
        ≡ map view values.old.items ++ option_to_list (option_map view value)) }
{
    match value {
        Some(value) => Ok(values.push(value)?),
        None => Ok(()),
    }
}

/// What is made for each number below another, in order, where something is.
#[tactic(auto, using(crate::proofs::ValueLemmas::below))]
pub fn made_below<F: Fn(usize) -> Result<Option<Value>, AllocError>>(
    alloc: Global,
    count: usize,
    make: F,
) -> Result<Vec<Value>, AllocError>
    requires callable { (i : ℕ) → i < count → F.pre make i }
    ensures made { (f : ℕ → List Data)
        → ((i : ℕ) → i < count → (r : _) → F.post make i r
        → IfOk r (λ o. option_to_list (option_map view o) ≡ f i))
        → IfOk result (λ v. map view v.items ≡ all_below count f) }
{
    let mut values = Vec::new(alloc);
    for i in 0..count {
        if let Some(value) = make(i)? {
            values.push(value)?;
        }
    }
    Ok(values)
}

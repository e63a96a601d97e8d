//! JSON objects, made member by member.
ghost use Rattle.std.specs.Prelude.{◌≡◌, IfOk};
ghost use Rattle.serde_json.specs.Data.{object, no_members, string, put as with_member};
ghost use Rattle.serde_json.specs.View.{view, members_view};

use serde_json::{Map, Value, put};
use std::alloc::{AllocError, Global};

/// An object in the making. Each member is a call, at whose `?` nothing else is let go of.
#[derive(Drop)]
pub struct Object {
    alloc: Global,
    members: Map<String, Value>,
}

impl Object {
    /// The object without members.
    pub fn new(alloc: Global) -> Object
        ensures none { members_view result.members.entries ≡ no_members }
    {
        Object {
            alloc,
            members: Map::new(alloc),
        }
    }

    /// The object with a member of this name more.
    pub fn with(mut self, name: &str, value: Value) -> Result<Object, AllocError>
        ensures member { IfOk result (λ o. members_view o.members.entries
            ≡ with_member name.now (view value) (members_view self.members.entries)) }
    {
        put(&mut self.members, self.alloc, name, value)?;
        Ok(self)
    }

    /// The object with a text more.
    pub fn with_text(self, name: &str, text: &str) -> Result<Object, AllocError>
        ensures member { IfOk result (λ o. members_view o.members.entries
            ≡ with_member name.now (string text.now) (members_view self.members.entries)) }
    {
        let value = Value::try_from_str(self.alloc, text)?;
        self.with(name, value)
    }

    /// The whole object.
    pub fn value(self) -> Value
        ensures value { view result ≡ object (members_view self.members.entries) }
    {
        Value::Object(self.members)
    }
}

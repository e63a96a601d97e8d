//! Copies of places, and whether two places are the same.
ghost use Rattle.std.specs.Prelude.{◌≡◌, ◌↔◌, IfOk, IsTrue};

use super::Place;
use ipc_names::Name;
use ipc_objects::Message;
use std::alloc::{AllocError, Global};
use std::hash::{FoldHasher, Hasher};
use std::mem::size_of;

fn feed_name(name: &Option<Name>, hasher: &mut FoldHasher) {
    if let Some(name) = name {
        let text = name.text().as_bytes();
        hasher.write_usize(text.len());
        hasher.write(text);
    }
}

/// About how many bytes the entry of a name takes.
const ENTRY: usize = 128;

impl Place {
    /// An equal place. Its name, and the words of its messages, are shared.
    pub fn copy(&self, alloc: Global) -> Result<Place, AllocError>
        ensures equal { IfOk result (λ copy. copy ≡ self.now) }
    {
        Ok(match self {
            Place::Empty => Place::Empty,
            Place::Mq { name, queue } => Place::Mq {
                name: name.clone()?,
                queue: queue.copy(alloc)?,
            },
            Place::Sem { name, semaphore } => Place::Sem {
                name: name.clone()?,
                semaphore: semaphore.clone()?,
            },
        })
    }

    /// Whether two places hold the same, with the same name.
    pub fn is_same(&self, other: &Place) -> bool
        ensures same { IsTrue result ↔ (self.now ≡ other.now) }
    {
        *self == *other
    }

    /// About how many bytes the place takes, with its messages and the entry of its name. The words of
    /// messages are shared.
    pub fn size(&self) -> usize {
        let (name, messages) = match self {
            Place::Empty => return size_of::<Place>(),
            Place::Mq { name, queue } => (name, queue.attr().2 as usize),
            Place::Sem { name, .. } => (name, 0),
        };
        let name = name.as_ref();
        let entry = name.map_or(0, |name| ENTRY.saturating_add(name.text().len()));
        size_of::<Place>()
            .saturating_add(size_of::<Message>().saturating_mul(messages))
            .saturating_add(entry)
    }

    /// A number for what the place holds, and 0 for an empty place.
    pub fn digest(&self) -> u64 {
        let mut hasher = FoldHasher::default();
        match self {
            Place::Empty => return 0,
            Place::Mq { name, queue } => {
                hasher.write_u8(1);
                feed_name(name, &mut hasher);
                hasher.write_u64(queue.digest());
            }
            Place::Sem { name, semaphore } => {
                hasher.write_u8(2);
                feed_name(name, &mut hasher);
                hasher.write_u16(semaphore.value());
            }
        }
        hasher.finish()
    }
}

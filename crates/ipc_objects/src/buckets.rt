//! Messages in the order of receive, in one bucket for each priority that has some.
ghost use Rattle.std.specs.Prelude.{◌≡◌, ◌<◌, [], ◌++◌, slice_get, None, IfOk, IfErr, OnOk, OnErr, All};
ghost use Rattle.std.specs.Option.{option_copied};
ghost use Rattle.std.specs.Ordering.{nat_cmp};
ghost use Rattle.std.specs.BTreeMap.{get, IsOrdered};
ghost use Rattle.ipc_objects.specs.Queue.{after_send};
ghost use Rattle.ipc_objects.specs.Private.Buckets.{buckets_with_message, after_greatest, AreBelow, IsBucket};

use crate::Message;
use crate::messages::Bucket;
use std::alloc::{AllocError, Global};
use std::collections::BTreeMap;
use std::hash::FoldHasher;
use std::marker::Model;

/// Messages in the order in which they would be received.
#[derive(Drop)]
pub(crate) struct Buckets {
    alloc: Global,
    /// The messages of each priority that has some: no bucket is empty.
    by_priority: BTreeMap<u16, Bucket>,
}

impl Model for Buckets {
    ghost use Rattle.std.specs.Prelude.{List};
    ghost use Rattle.ipc_objects.specs.declared.queue.Message.{Message};
    ghost use Rattle.ipc_objects.specs.Private.Buckets.{messages_of_buckets, AreBuckets};

    ghost Value = { List Message };

    ghost view = { λ a. messages_of_buckets a.by_priority.entries };

    ghost invariant = { λ a. AreBuckets a.by_priority.entries };
}

/// Makes the bucket of a priority that has none. A message that is refused memory is handed back.
fn make(buckets: &mut BTreeMap<u16, Bucket>, alloc: Global, message: Message) -> Result<(), Message>
    requires absent { get nat_cmp buckets.old message.priority ≡ None }
    ensures ok { OnOk result
        (buckets.new.entries ≡ buckets_with_message buckets.old.entries message) }
    ensures err { OnErr result (buckets.new.entries ≡ buckets.old.entries) }
    ensures handed_back { IfErr result (λ back. back ≡ message) }
    ensures ordered { OnOk result (IsOrdered nat_cmp buckets.new) }
{
    match buckets.insert(message.priority, Bucket::of(alloc, message)) {
        Ok(_) => Ok(()),
        Err(failed) => {
            let (_, bucket) = failed.value;
            Err(bucket.into_message())
        }
    }
}

/// Adds a message to the bucket of its priority. Where memory is refused it is handed back.
fn put(buckets: &mut BTreeMap<u16, Bucket>, alloc: Global, message: Message) -> Result<(), Message>
    ensures ok { OnOk result
        (buckets.new.entries ≡ buckets_with_message buckets.old.entries message) }
    ensures err { OnErr result (buckets.new.entries ≡ buckets.old.entries) }
    ensures handed_back { IfErr result (λ back. back ≡ message) }
    ensures ordered { OnOk result (IsOrdered nat_cmp buckets.new) }
{
    match buckets.get_mut(&message.priority) {
        Some(bucket) => bucket.push(message),
        None => make(buckets, alloc, message),
    }
}

/// Equal buckets.
fn copy_of(
    alloc: Global,
    buckets: &BTreeMap<u16, Bucket>,
) -> Result<BTreeMap<u16, Bucket>, AllocError>
    ensures equal { IfOk result (λ copy. copy.entries ≡ buckets.now.entries) }
{
    let mut copy = BTreeMap::new(alloc);
    for (priority, bucket) in buckets {
        copy.insert(*priority, bucket.copy(alloc)?)?;
    }
    Ok(copy)
}

impl Buckets {
    pub(crate) fn new(alloc: Global) -> Buckets
        ensures empty { result ≡ [] }
    {
        Buckets {
            alloc,
            by_priority: BTreeMap::new(alloc),
        }
    }

    /// Adds a message behind all of its priority or a greater one and before all of a lesser one.
    /// Where memory is refused it is handed back and nothing changes.
    pub(crate) fn push(&mut self, message: Message) -> Result<(), Message>
        ensures ok { OnOk result (self.new ≡ after_send message self.old) }
        ensures err { OnErr result (self.new ≡ self.old) }
        ensures handed_back { IfErr result (λ back. back ≡ message) }
    {
        put(&mut self.by_priority, self.alloc, message)
    }

    /// Adds the bucket of a priority above all others. Where memory is refused it is handed back.
    pub(crate) fn put_greatest(&mut self, priority: u16, bucket: Bucket) -> Result<(), Bucket>
        requires bucket { IsBucket (priority, bucket) }
        requires greatest { All (λ m. m.priority < priority) self.old }
        ensures ok { OnOk result (self.new ≡ bucket ++ self.old) }
        ensures err { OnErr result (self.new ≡ self.old) }
        ensures handed_back { IfErr result (λ back. back ≡ bucket) }
    {
        match self.by_priority.insert(priority, bucket) {
            Ok(_) => Ok(()),
            Err(failed) => {
                let (_, bucket) = failed.value;
                Err(bucket)
            }
        }
    }

    /// Takes out the bucket of the greatest priority, if there is one.
    pub(crate) fn pop_greatest(&mut self) -> Option<(u16, Bucket)>
        ensures rest { self.old ≡ after_greatest result self.new }
        ensures greatest { AreBelow result self.new }
    {
        self.by_priority.pop_last()
    }

    /// The message with `n` others before it.
    pub(crate) fn get(&self, n: usize) -> Option<&Message>
        ensures message { option_copied result ≡ slice_get self.now n }
    {
        let mut left = n;
        for (_, bucket) in self.by_priority.iter().rev() {
            let count = bucket.len();
            if left < count {
                return bucket.get(left);
            }
            left -= count;
        }
        None
    }

    /// Equal messages in the same order.
    pub(crate) fn copy(&self, alloc: Global) -> Result<Buckets, AllocError>
        ensures equal { IfOk result (λ copy. copy ≡ self.now) }
    {
        let by_priority = copy_of(alloc, &self.by_priority)?;
        Ok(Buckets { alloc, by_priority })
    }

    /// Adds the messages to a digest.
    pub(crate) fn feed(&self, hasher: &mut FoldHasher) {
        for bucket in self.by_priority.values() {
            bucket.feed(hasher);
        }
    }
}

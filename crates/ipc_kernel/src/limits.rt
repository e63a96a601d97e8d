//! The limits of the kernel that POSIX.1-2017 leaves to the system.
ghost use Rattle.std.specs.Prelude.{◌≡◌};
ghost use Rattle.ipc_kernel.specs.Limits.{object_places, open_max, opens_max, process_max};

/// How many objects, queues and semaphores together, there can be.
pub const OBJECT_PLACES: usize = 64;

/// How many queues, and how many semaphores, a process can have open.
pub const OPEN_MAX: usize = 16;

/// How often a process can have a semaphore open.
pub const OPENS_MAX: u8 = 255;

/// How many processes there can be.
pub const PROCESS_MAX: usize = 64;

/// Each of these constants is the number that the definitions give by this name.
pub fn limits_are_defined()
    ensures places { OBJECT_PLACES ≡ object_places }
    ensures open { OPEN_MAX ≡ open_max }
    ensures opens { OPENS_MAX ≡ opens_max }
    ensures processes { PROCESS_MAX ≡ process_max }
{}

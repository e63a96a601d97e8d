//! The errors of the calls by their names (POSIX.1-2017, `<errno.h>`).
#![tactic(auto)]

ghost use Rattle.std.specs.Prelude.{◌≡◌};
ghost use Rattle.ipc_errors.specs.Names.{error_name, errors, is_name, error_named};

use ipc_names::Errno;

const ERRORS: [Errno; 11] = [
    Errno::NoEntry,
    Errno::BadDescriptor,
    Errno::Again,
    Errno::Fault,
    Errno::Exists,
    Errno::Invalid,
    Errno::TooManyOpen,
    Errno::NoSpace,
    Errno::NameTooLong,
    Errno::Overflow,
    Errno::MessageSize,
];

fn errors() -> &'static [Errno]
    ensures errors { result.now ≡ errors }
{
    &ERRORS
}

/// The name of an error.
pub fn error_name(error: Errno) -> &'static str
    ensures text { result.now ≡ error_name error }
{
    match error {
        Errno::NoEntry => "ENOENT",
        Errno::BadDescriptor => "EBADF",
        Errno::Again => "EAGAIN",
        Errno::Fault => "EFAULT",
        Errno::Exists => "EEXIST",
        Errno::Invalid => "EINVAL",
        Errno::TooManyOpen => "EMFILE",
        Errno::NoSpace => "ENOSPC",
        Errno::NameTooLong => "ENAMETOOLONG",
        Errno::Overflow => "EOVERFLOW",
        Errno::MessageSize => "EMSGSIZE",
    }
}

#[tactic(auto, unfolding(crate::specs::Names::is_name))]
fn is_name(word: &str, error: Errno) -> bool
    ensures value { result ≡ is_name word.now error }
{
    error_name(error) == word
}

/// The error that a word names.
pub fn error_named(word: &str) -> Option<Errno>
    ensures error { result ≡ error_named word.now }
{
    errors().iter().copied().find(|error| is_name(word, *error))
}

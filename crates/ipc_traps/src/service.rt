//! The calls of the kernel, by the vectors of their traps and by their names.

ghost use Rattle.std.specs.Prelude.{◌≡◌, None, IfSome, is_some};
ghost use Rattle.lc3_machine.specs.Effects.{is_kernel_trap};
ghost use Rattle.ipc_traps.specs.Services.{service_in, service_name, is_on_queues, is_open, is_by_name, is_on_level};
ghost use Rattle.ipc_traps.specs.declared.service.Service.{Service as Call};

/// The vector of the trap of mq_send.
pub const MQ_SEND: u8 = 0x43;

/// The vector of the trap of mq_receive.
pub const MQ_RECEIVE: u8 = 0x44;

/// The vector of the trap of sem_wait.
pub const SEM_WAIT: u8 = 0x53;

/// The vector of the trap of sem_post.
pub const SEM_POST: u8 = 0x55;

/// A call of the kernel.
#[derive(Clone, Copy, Debug, PartialEq, Eq)]
pub enum Service {
    MqOpen,
    MqClose,
    MqUnlink,
    MqSend,
    MqReceive,
    MqGetattr,
    MqSetattr,
    SemOpen,
    SemClose,
    SemUnlink,
    SemWait,
    SemTrywait,
    SemPost,
    SemGetvalue,
}

/// The call with a vector, if this is its name.
fn named_at(vector: u8, name: &[u8]) -> Option<Service>
    ensures some { IfSome result (λ service. service_name service ≡ name.now) }
    ensures none { result ≡ None
        → IfSome (service_in vector) (λ s. service_name s ≡ name.now → ⊥) }
{
    let service = Service::of_vector(vector)?;
    if service.name().as_bytes() == name {
        Some(service)
    } else {
        None
    }
}

impl Service {
    /// The call with this vector.
    #[tactic(auto, unfolding(crate::specs::Services::service_in))]
    #[inline(always)]
    pub fn of_vector(vector: u8) -> Option<Service>
        ensures service { result ≡ service_in vector }
        ensures kernel { is_some result ≡ is_kernel_trap vector }
    {
        match vector {
            0x40 => Some(Service::MqOpen),
            0x41 => Some(Service::MqClose),
            0x42 => Some(Service::MqUnlink),
            MQ_SEND => Some(Service::MqSend),
            MQ_RECEIVE => Some(Service::MqReceive),
            0x45 => Some(Service::MqGetattr),
            0x46 => Some(Service::MqSetattr),
            0x50 => Some(Service::SemOpen),
            0x51 => Some(Service::SemClose),
            0x52 => Some(Service::SemUnlink),
            SEM_WAIT => Some(Service::SemWait),
            0x54 => Some(Service::SemTrywait),
            SEM_POST => Some(Service::SemPost),
            0x56 => Some(Service::SemGetvalue),
            _ => None,
        }
    }

    /// The name that POSIX.1-2017 gives the call.
    pub fn name(self) -> &'static str
        ensures text { result.now ≡ service_name self }
    {
        match self {
            Service::MqOpen => "mq_open",
            Service::MqClose => "mq_close",
            Service::MqUnlink => "mq_unlink",
            Service::MqSend => "mq_send",
            Service::MqReceive => "mq_receive",
            Service::MqGetattr => "mq_getattr",
            Service::MqSetattr => "mq_setattr",
            Service::SemOpen => "sem_open",
            Service::SemClose => "sem_close",
            Service::SemUnlink => "sem_unlink",
            Service::SemWait => "sem_wait",
            Service::SemTrywait => "sem_trywait",
            Service::SemPost => "sem_post",
            Service::SemGetvalue => "sem_getvalue",
        }
    }

    /// The call of this name.
    pub fn of_name(name: &[u8]) -> Option<Service>
        ensures some { IfSome result (λ service. service_name service ≡ name.now) }
        ensures none { result ≡ None → (s : Call) → service_name s ≡ name.now → ⊥ }
    {
        for vector in 0x40..0x57_u8 {
            if let Some(service) = named_at(vector, name) {
                return Some(service);
            }
        }
        None
    }

    /// Whether the call is on message queues, and not on semaphores.
    pub fn is_on_queues(self) -> bool
        ensures value { result ≡ is_on_queues self }
    {
        matches!(
            self,
            Service::MqOpen
                | Service::MqClose
                | Service::MqUnlink
                | Service::MqSend
                | Service::MqReceive
                | Service::MqGetattr
                | Service::MqSetattr
        )
    }

    /// Whether the call opens an object.
    pub fn is_open(self) -> bool
        ensures value { result ≡ is_open self }
    {
        matches!(self, Service::MqOpen | Service::SemOpen)
    }

    /// Whether the call names its object in memory, and not by a descriptor or a slot.
    pub fn is_by_name(self) -> bool
        ensures value { result ≡ is_by_name self }
    {
        matches!(
            self,
            Service::MqOpen | Service::MqUnlink | Service::SemOpen | Service::SemUnlink
        )
    }

    /// Whether the call can change the messages of a queue or the value of a semaphore that is open.
    pub fn is_on_level(self) -> bool
        ensures value { result ≡ is_on_level self }
    {
        matches!(
            self,
            Service::MqSend
                | Service::MqReceive
                | Service::SemWait
                | Service::SemTrywait
                | Service::SemPost
        )
    }
}

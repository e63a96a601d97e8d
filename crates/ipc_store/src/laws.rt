//! What holds of every answer, as a search relies on it, for callers to cite as a statement of their
//! own.
ghost use Rattle.ipc_kernel.specs.Alike.{AnswersAlike, StartsConsistent, StaysConsistent};
ghost use Rattle.ipc_kernel.specs.Operands.{AnswersByOperand, StaysSettled};
ghost use Rattle.ipc_kernel.specs.OwnCalls.{OwnAlike, OwnCallsCommute, StartNamed, StayNamed};
ghost use Rattle.ipc_store.specs.Uses.{UnnoticedCallsCommute, UnnoticedCallsHarmless, UsesAlike};

/// The numbers of the object places show in no answer: kernels that are alike answer each call
/// alike, and are alike after it.
pub fn alike_law()
    ensures alike { AnswersAlike }
{}

/// In a kernel before the first call no reference is to no object, and no name stands for two.
pub fn empty_law()
    ensures consistent { StartsConsistent }
{}

/// A kernel in which each reference is to an object, and each name to one, stays so.
pub fn consistent_law()
    ensures consistent { StaysConsistent }
{}

/// A call that removes no object depends on the tables of its process and on what is in the place
/// that it works on alone, and changes nothing else.
#[tactic(auto, using(crate::proofs::OperandAnswers::answers_by_operand))]
pub fn operand_law()
    ensures answers { AnswersByOperand }
{}

/// After each call, each place without a name that nothing refers to is empty, if it was so before.
#[tactic(auto, using(crate::proofs::SettledAnswers::stays_settled))]
pub fn settled_law()
    ensures settled { StaysSettled }
{}

/// Where each object has a name, a call that changes the tables of its process alone commutes with
/// each call of another process that takes no name away. Each object has a name before the first
/// call, and after each that takes none away. Which calls change the tables alone, and whether each
/// object has a name, is the same in kernels that are alike.
pub fn own_law()
    ensures commute { OwnCallsCommute }
    ensures empty { StartNamed }
    ensures named { StayNamed }
    ensures alike { OwnAlike }
{}

/// Where each object has a name, and no semaphore is near its greatest value, a call that no other
/// process can notice commutes with each answered call of another that is within the uses. It is
/// answered, and leaves what others are about to do within the uses or not. All this is the same in
/// kernels that are alike.
pub fn unnoticed_law()
    ensures commute { UnnoticedCallsCommute }
    ensures harmless { UnnoticedCallsHarmless }
    ensures alike { UsesAlike }
{}

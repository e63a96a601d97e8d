//! What holds of every answer, for callers to cite as a statement of their own.
ghost use Rattle.std.specs.Prelude.{◌≡◌, ℕ, IsTrue, length};
ghost use Rattle.ipc_kernel.specs.Kernel.{KernelState};
ghost use Rattle.ipc_kernel.specs.Answer.{answer, may_wait};
ghost use Rattle.ipc_kernel.specs.declared.call.Call.{Call};
ghost use Rattle.ipc_kernel.specs.declared.call.Answer.TheVariants.{Wait};

/// A call that must wait changes nothing.
#[tactic(auto, using(crate::proofs::LawfulAnswers::answer_wait))]
pub fn waiting_law()
    ensures unchanged { (k : KernelState) (p : ℕ) (c : Call) →
        (answer k p c).0 ≡ Wait → (answer k p c).1 ≡ k }
{}

/// Only mq_send, mq_receive and sem_wait can wait.
#[tactic(auto, using(crate::proofs::LawfulAnswers::answer_may_wait))]
pub fn waiting_calls_law()
    ensures calls { (k : KernelState) (p : ℕ) (c : Call) →
        (answer k p c).0 ≡ Wait → IsTrue (may_wait c) }
{}

/// The number of processes stays.
#[tactic(auto, using(crate::proofs::LawfulAnswers::answer_count))]
pub fn count_law()
    ensures count { (k : KernelState) (p : ℕ) (c : Call) →
        length (answer k p c).1.processes ≡ length k.processes }
{}

//! Laws of what a trace shows of calls.
ghost use Rattle.lab_told.specs.Shown.{ShowsAnswer, ShowsRefusal};

/// The line of a call shows the kernel's answer to it, or the error with which it was refused without the kernel.
pub fn shown_law()
    ensures answer { ShowsAnswer }
    ensures refusal { ShowsRefusal }
{}

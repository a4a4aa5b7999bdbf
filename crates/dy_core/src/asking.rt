ghost use Rattle.std.specs.Prelude.{◌≡◌};
ghost use Rattle.dy_syntax.specs.Meaning.{handler_of};
ghost use Rattle.dy_core.specs.StepMeaning.{step_of};
ghost use Rattle.dy_core.specs.BookMeaning.{decls_in};
ghost use Rattle.dy_core.specs.Asking as asking;

use crate::books::Book;
use crate::steps::StartStep;
use dy_syntax::{Handler, handler_named};
use dy_traces::limits::MAX_STEPS;

/// Whether the step has what the handler takes.
fn fits_handler(step: &StartStep, handler: &Handler) -> bool
    ensures { result ≡ asking.fits_handler (step_of step.now) (handler_of handler.now) }
{
    step.args.len() == handler.args.len()
        && matches!(
            (&step.session, &handler.on),
            (None, None) | (Some(_), Some(_))
        )
        && matches!(
            (&step.message, &handler.recv),
            (None, None) | (Some(_), Some(_))
        )
}

impl Book {
    /// Whether the step fits the file: its handler is declared and takes so many arguments, and its number is below
    /// 1,024. A session is given exactly where the handler goes on from a state, and a message exactly where it
    /// receives one.
    pub fn asks_right(&self, step: &StartStep) -> bool
        ensures { result ≡ asking.asks_right (decls_in self.now) (step_of step.now) }
    {
        match handler_named(self.file.decls.as_slice(), &step.handler) {
            Some(handler) => fits_handler(step, handler) && step.step < MAX_STEPS,
            None => false,
        }
    }
}

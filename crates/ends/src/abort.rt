// A run given up: the end is taken apart, and the sponge stays as it is.
ghost use Rattle.std.specs.Prelude.{◌≡◌};

use crate::end::{End, Mid, Ready, Start};
use transcript::shape::StarkShape;

// A state that a run may be given up in: its bracket is not opened yet.
trait Unopened {}

impl Unopened for Start {}

impl Unopened for Mid {}

impl Unopened for Ready {}

impl<R, P: Unopened> End<R, P> {
    pub fn abort(self) -> StarkShape
        ensures { result ≡ self.shape }
    {
        self.shape()
    }
}

// A state whose counts are right.
ghost use Rattle.std.specs.Prelude.{◌≡◌, IfOk};
ghost use Rattle.order.specs.Order.{first_number};
ghost use Rattle.refusals.specs.Numbers.{number_in};
ghost use Rattle.parts.specs.State.{Counted};
ghost use Rattle.parts.specs.Answers.{state_order};

use crate::Parts;
use refusals::Refused;
use subtrees::counts::counted;

// A state, and that its counts are those of its total, which the test of `of` alone says.
#[derive(Clone, Copy)]
pub(crate) struct Sound {
    pub(crate) state: Parts,
    ghost counts: { Counted state },
}

impl Sound {
    // The state, where its counts are right.
    pub(crate) fn of(state: Parts) -> Result<Sound, Refused>
        ensures number { number_in result ≡ first_number (state_order state) }
        ensures same { IfOk result (λ s. s.state ≡ state) }
    {
        counted(state.total, state.held, state.stacked)?;
        Ok(Sound { state })
    }
}

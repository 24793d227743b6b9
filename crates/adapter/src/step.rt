// Whether the adapter is in step with the other sites, and what changes that.
ghost use Rattle.std.specs.Prelude.{◌≡◌};
ghost use Rattle.adapter.specs.Steps.{step_of, step_by, adds_in};

#[derive(Clone, Copy)]
pub(crate) enum Step {
    // Nothing is known of what waits at other sites.
    Out,
    // Frames are placed and thrown away; at most so many packets might wait elsewhere.
    Following { doubt: u32 },
    // The backlog is that of every other site in step.
    InStep,
}

// What changes the state of step.
#[derive(Clone, Copy)]
pub(crate) enum StepEvent {
    Loss,
    Anew,
    Skip,
    // A frame was placed: the doubt after it, and whether it was 0 after some slot.
    Placed { doubt: u32, zero: bool },
}

impl Step {
    pub(crate) fn after(self, event: StepEvent) -> Step
        ensures { step_of result ≡ step_by self event }
    {
        match (self, event) {
            (_, StepEvent::Loss | StepEvent::Anew | StepEvent::Skip) => Step::Out,
            (Step::InStep, StepEvent::Placed { .. }) => Step::InStep,
            (Step::Out | Step::Following { .. }, StepEvent::Placed { doubt, zero }) => {
                if zero {
                    Step::InStep
                } else {
                    Step::Following { doubt }
                }
            }
        }
    }

    // Whether a frame's packets go to the carrier.
    pub(crate) fn adds(self) -> bool
        ensures { result ≡ adds_in self }
    {
        match self {
            Step::Out | Step::Following { .. } => false,
            Step::InStep => true,
        }
    }
}

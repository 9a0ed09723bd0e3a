ghost use Rattle.schedule.specs.Arrivals.{Arrivals, Jitter, Share};
ghost use Rattle.schedule.specs.Example.{Example};
ghost use Rattle.schedule.specs.Resources.{Response};
ghost use Rattle.schedule.specs.Traces.{TwoPhases};

// Each function here does nothing: it is there for its contract, which is a theorem, so that the check asks for the proof.

// Response: a job that waits for a resource served in a fixed order is done within any solution of its row's equation.
pub fn response_stands() -> u8
    ensures { Response }
{
    0
}

// Arrivals: jobs at least T steps apart come at most ⌈w / T⌉ times in any w consecutive steps.
pub fn arrivals_stand() -> u8
    ensures { Arrivals }
{
    0
}

// Jitter: jobs that become ready at most J steps after they come do so at most ⌈(w + J) / T⌉ times, with C of work each.
pub fn jitter_stands() -> u8
    ensures { Jitter }
{
    0
}

// Share: jobs that are served at most E steps, and only while younger than Q, get at most E × ⌈(L + Q - 1) / T⌉ of L steps.
pub fn share_stands() -> u8
    ensures { Share }
{
    0
}

// Two phases: over every trace that keeps the laws, ages are below RM and RM + RC, no arrival meets a full place, and both
// shares hold.
pub fn two_phases_stand() -> u8
    ensures { TwoPhases }
{
    0
}

// The laws of a trace don't contradict each other: a table of three rows and a trace of it that keeps them for ever.
pub fn example_stands() -> u8
    ensures { Example }
{
    0
}

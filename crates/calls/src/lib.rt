// What the writer's calls answer and leave, and the law over whole runs of them: see specs/.
#![tactic(auto)]

ghost use Rattle.calls.specs.Runs.{RunsAreRecorded};

// After any calls on a writer just begun, faulted ones among them, an accepted end leaves the file of the notebook's recording, and it reads back as that.
pub fn runs_are_recorded()
    ensures { RunsAreRecorded }
{}

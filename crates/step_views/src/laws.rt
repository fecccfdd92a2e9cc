//! What the looks at a machine are worth. Nothing here runs.
ghost use Rattle.step_views.specs.Laws as laws;

/// What a step is answered and leaves is the same whatever guest memory has in other bytes than
/// those that it reads.
pub fn step_reads()
    ensures { laws.StepReads }
{}

/// What a step reads is what is said by the bytes of its command.
pub fn reads_by_command()
    ensures { laws.StepReadsBy }
{}

/// A step that is made on other memory, which has the bytes that the step reads, is answered and
/// leaves the same as one that is made on guest memory.
pub fn lent_steps_agree()
    ensures { laws.LentStepsAgree }
{}

/// A signal to an enabled translator goes where the event leads.
pub fn destination_tells()
    ensures { laws.DestinationTells }
{}

/// A step maps one event more at most.
pub fn steps_add_one()
    ensures { laws.StepsAddOne }
{}

/// A save changes no byte outside the stretches that it is said to write.
pub fn saves_stay_inside()
    ensures { laws.SavesStayInside }
{}

// The sample of the trace program, a run with two slides, and one with changed headers, worked out from the definitions.
ghost use Rattle.rules.specs.Changed.{ChangedHeaders};
ghost use Rattle.rules.specs.Samples.{BothShow, SampleShows};

pub fn sample_shows()
    ensures { SampleShows }
{}

// Two slides shown by one reading, each at its own moment.
pub fn both_show()
    ensures { BothShow }
{}

// A held slide sent again under other TransportIds.
pub fn changed_headers()
    ensures { ChangedHeaders }
{}

// Worked examples of records, proved from the definitions.
ghost use Rattle.records.specs.Examples.{ExamplesStand};

pub fn examples_stand()
    ensures { ExamplesStand }
{}

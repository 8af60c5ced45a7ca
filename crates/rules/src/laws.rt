// The laws of whole runs, each on a contract.
ghost use Rattle.rules.specs.Laws.{LawsStand, EffectsAreShown, CountsAreEffects};

pub fn laws_stand()
    ensures { LawsStand }
{}

pub fn effects_are_shown()
    ensures shown { EffectsAreShown }
    ensures counted { CountsAreEffects }
{}
